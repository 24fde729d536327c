//! Keys and entries of tables.
use mach_types::{Name, TaskId};
use number_map::NumberMap;
use std::alloc::AllocError;

/// Returns the key of a task's name.
pub(crate) fn key_of(task: TaskId, name: Name) -> u64 {
    u64::from(task.number()) * 0x1_0000_0000 + u64::from(name.number())
}

/// Puts the value under the key, in the place of the value there. Returns `AllocError` if out of memory; the table is
/// then unchanged.
pub(crate) fn put<V: Copy>(table: &mut NumberMap<V>, key: u64, value: V) -> Result<(), AllocError> {
    if table.get(key).is_some() {
        table.set(key, value);
        return Ok(());
    }
    table.reserve(1)?;
    table.insert(key, value);
    Ok(())
}
