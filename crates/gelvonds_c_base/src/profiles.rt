//! Profiles by their numbers.
ghost use Rattle.std.specs.Prelude.{◌≡◌, Some};
ghost use Rattle.gelvonds_c_base.specs.Profiles.{profile_numbered};

use mach_types::Profile;

/// The profile that a kernel can have of this number, 1 to 3; `None` for any other number.
pub fn profile_of(number: u32) -> Option<Profile>
    ensures { result ≡ profile_numbered number }
{
    match number {
        1 => Some(Profile::One),
        2 => Some(Profile::Two),
        3 => Some(Profile::Three),
        _ => None,
    }
}

/// The number of a profile, 1 to 3.
pub fn number_of(profile: Profile) -> u32
    ensures { profile_numbered result ≡ Some profile }
{
    match profile {
        Profile::One => 1,
        Profile::Two => 2,
        Profile::Three => 3,
    }
}
