//! How pictures look.

/// The colours of a picture.
#[derive(Clone, Copy)]
pub enum Scheme {
    /// Dark on light.
    Light,
    /// Light on dark.
    Dark,
    /// Light, or dark where the reader prefers that.
    Both,
}

impl Scheme {
    /// Returns the rules of the scheme. Constant time.
    pub fn rules(self) -> &'static str {
        match self {
            Scheme::Light => LIGHT,
            Scheme::Dark => DARK,
            Scheme::Both => BOTH,
        }
    }
}

/// Dark on light.
const LIGHT: &str = "\
text{font-family:DejaVu Sans Mono,Menlo,Consolas,Liberation Mono,monospace;font-size:12px}\n\
.name,.code{font-weight:bold}\n\
.on,.on-note,.on-dim{font-size:11px}\n\
.on,.on-note,.on-dim,.name{paint-order:stroke;stroke-width:4px;stroke-linejoin:round}\n\
line,.life,.wait,.ring,.box,.hollow{fill:none;stroke-width:1.5px}\n\
.wait{stroke-width:1.2px}\n\
.queue,.queue-note{stroke-width:6px}\n\
.queue-note{stroke-dasharray:3 3}\n\
.note{stroke-dasharray:6 4}\n\
.stem{stroke-width:1px;stroke-dasharray:2 3}\n\
.give{stroke-width:1px;stroke-dasharray:1.5 3}\n\
.hollow{stroke-width:1px}\n\
.cross{stroke-width:2.5px;stroke-linecap:round}\n\
.end{stroke-width:3px;stroke-linecap:round}\n\
.back{fill:#fff}\n\
.band{fill:#f1f3f5}\n\
text,.dot{fill:#16181b}\n\
.dim,.on-dim{fill:#5f656c}\n\
.code{fill:#b3261e}\n\
.on-note,.dot-note{fill:#0a58a6}\n\
.on,.on-note,.on-dim,.name{stroke:#fff}\n\
.odd .on,.odd .on-note,.odd .on-dim{stroke:#f1f3f5}\n\
.life,.wait{stroke:#8d949c}\n\
.wait,.ring,.box,.hollow{fill:#fff}\n\
.message,.end,.box{stroke:#16181b}\n\
.note,.stem,.queue-note{stroke:#0a58a6}\n\
.queue{stroke:#e0b04a}\n\
.give,.hollow,.ring{stroke:#5f656c}\n\
.cross{stroke:#b3261e}\n\
";

/// Light on dark.
const DARK: &str = "\
text{font-family:DejaVu Sans Mono,Menlo,Consolas,Liberation Mono,monospace;font-size:12px}\n\
.name,.code{font-weight:bold}\n\
.on,.on-note,.on-dim{font-size:11px}\n\
.on,.on-note,.on-dim,.name{paint-order:stroke;stroke-width:4px;stroke-linejoin:round}\n\
line,.life,.wait,.ring,.box,.hollow{fill:none;stroke-width:1.5px}\n\
.wait{stroke-width:1.2px}\n\
.queue,.queue-note{stroke-width:6px}\n\
.queue-note{stroke-dasharray:3 3}\n\
.note{stroke-dasharray:6 4}\n\
.stem{stroke-width:1px;stroke-dasharray:2 3}\n\
.give{stroke-width:1px;stroke-dasharray:1.5 3}\n\
.hollow{stroke-width:1px}\n\
.cross{stroke-width:2.5px;stroke-linecap:round}\n\
.end{stroke-width:3px;stroke-linecap:round}\n\
.back{fill:#15181b}\n\
.band{fill:#1f2428}\n\
text,.dot{fill:#eceff1}\n\
.dim,.on-dim{fill:#a2a9b0}\n\
.code{fill:#ff8f7a}\n\
.on-note,.dot-note{fill:#86bdfa}\n\
.on,.on-note,.on-dim,.name{stroke:#15181b}\n\
.odd .on,.odd .on-note,.odd .on-dim{stroke:#1f2428}\n\
.life,.wait{stroke:#6f767d}\n\
.wait,.ring,.box,.hollow{fill:#15181b}\n\
.message,.end,.box{stroke:#eceff1}\n\
.note,.stem,.queue-note{stroke:#86bdfa}\n\
.queue{stroke:#b98a2a}\n\
.give,.hollow,.ring{stroke:#a2a9b0}\n\
.cross{stroke:#ff8f7a}\n\
";

/// Light, or dark where that is preferred.
const BOTH: &str = "\
text{font-family:DejaVu Sans Mono,Menlo,Consolas,Liberation Mono,monospace;font-size:12px}\n\
.name,.code{font-weight:bold}\n\
.on,.on-note,.on-dim{font-size:11px}\n\
.on,.on-note,.on-dim,.name{paint-order:stroke;stroke-width:4px;stroke-linejoin:round}\n\
line,.life,.wait,.ring,.box,.hollow{fill:none;stroke-width:1.5px}\n\
.wait{stroke-width:1.2px}\n\
.queue,.queue-note{stroke-width:6px}\n\
.queue-note{stroke-dasharray:3 3}\n\
.note{stroke-dasharray:6 4}\n\
.stem{stroke-width:1px;stroke-dasharray:2 3}\n\
.give{stroke-width:1px;stroke-dasharray:1.5 3}\n\
.hollow{stroke-width:1px}\n\
.cross{stroke-width:2.5px;stroke-linecap:round}\n\
.end{stroke-width:3px;stroke-linecap:round}\n\
.back{fill:#fff}\n\
.band{fill:#f1f3f5}\n\
text,.dot{fill:#16181b}\n\
.dim,.on-dim{fill:#5f656c}\n\
.code{fill:#b3261e}\n\
.on-note,.dot-note{fill:#0a58a6}\n\
.on,.on-note,.on-dim,.name{stroke:#fff}\n\
.odd .on,.odd .on-note,.odd .on-dim{stroke:#f1f3f5}\n\
.life,.wait{stroke:#8d949c}\n\
.wait,.ring,.box,.hollow{fill:#fff}\n\
.message,.end,.box{stroke:#16181b}\n\
.note,.stem,.queue-note{stroke:#0a58a6}\n\
.queue{stroke:#e0b04a}\n\
.give,.hollow,.ring{stroke:#5f656c}\n\
.cross{stroke:#b3261e}\n\
@media (prefers-color-scheme:dark){\n\
.back{fill:#15181b}\n\
.band{fill:#1f2428}\n\
text,.dot{fill:#eceff1}\n\
.dim,.on-dim{fill:#a2a9b0}\n\
.code{fill:#ff8f7a}\n\
.on-note,.dot-note{fill:#86bdfa}\n\
.on,.on-note,.on-dim,.name{stroke:#15181b}\n\
.odd .on,.odd .on-note,.odd .on-dim{stroke:#1f2428}\n\
.life,.wait{stroke:#6f767d}\n\
.wait,.ring,.box,.hollow{fill:#15181b}\n\
.message,.end,.box{stroke:#eceff1}\n\
.note,.stem,.queue-note{stroke:#86bdfa}\n\
.queue{stroke:#b98a2a}\n\
.give,.hollow,.ring{stroke:#a2a9b0}\n\
.cross{stroke:#ff8f7a}\n\
}\n\
";
