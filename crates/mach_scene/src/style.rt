//! How pictures of states look.

/// Dark on light.
pub const LIGHT: &str = "\
text{font-family:DejaVu Sans Mono,Menlo,Consolas,Liberation Mono,monospace;font-size:12px}\n\
.name,.code{font-weight:bold}\n\
.small,.small-dim,.small-note,.small-ink,.on-note{font-size:11px}\n\
.on-note{paint-order:stroke;stroke-width:4px;stroke-linejoin:round}\n\
line,path,.task,.port,.gone,.gone-port,.chip-note{fill:none}\n\
.task{stroke-width:1.5px;rx:3px}\n\
.port{stroke-width:1.2px;rx:8px}\n\
.head,.chip,.chip-note{rx:2px}\n\
.gone,.gone-port{stroke-dasharray:2 3}\n\
.gone-port{rx:8px}\n\
.chip-note{stroke-width:1.3px;stroke-dasharray:3 2}\n\
.wide{stroke-width:3.2px}\n\
.thin{stroke-width:1.3px}\n\
.once{stroke-width:1.3px;stroke-dasharray:6 4}\n\
.asked{stroke-width:1.2px;stroke-dasharray:1.5 3.5}\n\
.cross{stroke-width:2.5px;stroke-linecap:round}\n\
.end{stroke-width:3px;stroke-linecap:round}\n\
.back,.task,.port,.chip-note{fill:#fff}\n\
.head{fill:#f1f3f5}\n\
text,.dot{fill:#16181b}\n\
.dim,.small-dim{fill:#5f656c}\n\
.code{fill:#b3261e}\n\
.on-note,.small-note,.dot-note{fill:#0a58a6}\n\
.on-note{stroke:#fff}\n\
.task,.port,.wide,.thin,.once,.end{stroke:#16181b}\n\
.gone,.gone-port{stroke:#8d949c}\n\
.asked,.chip-note{stroke:#0a58a6}\n\
.chip{fill:#e0b04a}\n\
.small-ink{fill:#16181b}\n\
.cross{stroke:#b3261e}\n\
";

/// Light on dark.
pub const DARK: &str = "\
text{font-family:DejaVu Sans Mono,Menlo,Consolas,Liberation Mono,monospace;font-size:12px}\n\
.name,.code{font-weight:bold}\n\
.small,.small-dim,.small-note,.small-ink,.on-note{font-size:11px}\n\
.on-note{paint-order:stroke;stroke-width:4px;stroke-linejoin:round}\n\
line,path,.task,.port,.gone,.gone-port,.chip-note{fill:none}\n\
.task{stroke-width:1.5px;rx:3px}\n\
.port{stroke-width:1.2px;rx:8px}\n\
.head,.chip,.chip-note{rx:2px}\n\
.gone,.gone-port{stroke-dasharray:2 3}\n\
.gone-port{rx:8px}\n\
.chip-note{stroke-width:1.3px;stroke-dasharray:3 2}\n\
.wide{stroke-width:3.2px}\n\
.thin{stroke-width:1.3px}\n\
.once{stroke-width:1.3px;stroke-dasharray:6 4}\n\
.asked{stroke-width:1.2px;stroke-dasharray:1.5 3.5}\n\
.cross{stroke-width:2.5px;stroke-linecap:round}\n\
.end{stroke-width:3px;stroke-linecap:round}\n\
.back,.task,.port,.chip-note{fill:#15181b}\n\
.head{fill:#1f2428}\n\
text,.dot{fill:#eceff1}\n\
.dim,.small-dim{fill:#a2a9b0}\n\
.code{fill:#ff8f7a}\n\
.on-note,.small-note,.dot-note{fill:#86bdfa}\n\
.on-note{stroke:#15181b}\n\
.task,.port,.wide,.thin,.once,.end{stroke:#eceff1}\n\
.gone,.gone-port{stroke:#6f767d}\n\
.asked,.chip-note{stroke:#86bdfa}\n\
.chip{fill:#b98a2a}\n\
.small-ink{fill:#16181b}\n\
.cross{stroke:#ff8f7a}\n\
";

/// Light, or dark where the reader prefers that.
pub const BOTH: &str = "\
text{font-family:DejaVu Sans Mono,Menlo,Consolas,Liberation Mono,monospace;font-size:12px}\n\
.name,.code{font-weight:bold}\n\
.small,.small-dim,.small-note,.small-ink,.on-note{font-size:11px}\n\
.on-note{paint-order:stroke;stroke-width:4px;stroke-linejoin:round}\n\
line,path,.task,.port,.gone,.gone-port,.chip-note{fill:none}\n\
.task{stroke-width:1.5px;rx:3px}\n\
.port{stroke-width:1.2px;rx:8px}\n\
.head,.chip,.chip-note{rx:2px}\n\
.gone,.gone-port{stroke-dasharray:2 3}\n\
.gone-port{rx:8px}\n\
.chip-note{stroke-width:1.3px;stroke-dasharray:3 2}\n\
.wide{stroke-width:3.2px}\n\
.thin{stroke-width:1.3px}\n\
.once{stroke-width:1.3px;stroke-dasharray:6 4}\n\
.asked{stroke-width:1.2px;stroke-dasharray:1.5 3.5}\n\
.cross{stroke-width:2.5px;stroke-linecap:round}\n\
.end{stroke-width:3px;stroke-linecap:round}\n\
.back,.task,.port,.chip-note{fill:#fff}\n\
.head{fill:#f1f3f5}\n\
text,.dot{fill:#16181b}\n\
.dim,.small-dim{fill:#5f656c}\n\
.code{fill:#b3261e}\n\
.on-note,.small-note,.dot-note{fill:#0a58a6}\n\
.on-note{stroke:#fff}\n\
.task,.port,.wide,.thin,.once,.end{stroke:#16181b}\n\
.gone,.gone-port{stroke:#8d949c}\n\
.asked,.chip-note{stroke:#0a58a6}\n\
.chip{fill:#e0b04a}\n\
.small-ink{fill:#16181b}\n\
.cross{stroke:#b3261e}\n\
@media (prefers-color-scheme:dark){\n\
.back,.task,.port,.chip-note{fill:#15181b}\n\
.head{fill:#1f2428}\n\
text,.dot{fill:#eceff1}\n\
.dim,.small-dim{fill:#a2a9b0}\n\
.code{fill:#ff8f7a}\n\
.on-note,.small-note,.dot-note{fill:#86bdfa}\n\
.on-note{stroke:#15181b}\n\
.task,.port,.wide,.thin,.once,.end{stroke:#eceff1}\n\
.gone,.gone-port{stroke:#6f767d}\n\
.asked,.chip-note{stroke:#86bdfa}\n\
.chip{fill:#b98a2a}\n\
.small-ink{fill:#16181b}\n\
.cross{stroke:#ff8f7a}\n\
}\n\
";
