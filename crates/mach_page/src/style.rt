//! How a page looks.

/// The rules of a page, beside those of its chart and of its pictures.
pub(crate) const RULES: &str = "\
html{color-scheme:light dark}\n\
body{margin:0;font:14px/1.4 DejaVu Sans,system-ui,sans-serif;height:100vh;display:grid;grid-template:auto 1fr/minmax(200px,1fr) 592px}\n\
.bar{grid-column:1/3;padding:8px 14px;display:flex;gap:12px;align-items:center}\n\
h1{font-size:16px;margin:0 auto 0 0}\n\
button{font:inherit;color:inherit;border-radius:4px;padding:2px 10px;border-width:1px;border-style:solid}\n\
input{width:240px}\n\
span{min-width:6em;text-align:right;font-variant-numeric:tabular-nums}\n\
.left,.right{overflow:auto;border-style:solid;border-width:1px 0 0 0}\n\
.left{border-right-width:1px}\n\
.left svg{display:block}\n\
.left svg:first-child{position:sticky;top:0;border-bottom-style:solid;border-bottom-width:1px}\n\
.left svg+svg{margin-top:-34px}\n\
.left g{cursor:pointer}\n\
.say{position:sticky;top:0;min-height:118px;border-bottom-style:solid;border-bottom-width:1px}\n\
pre{font:12px/1.45 DejaVu Sans Mono,Menlo,Consolas,monospace;margin:0;padding:8px 14px;white-space:pre-wrap;overflow-wrap:anywhere}\n\
.right svg{width:100%;max-width:640px;height:auto;display:block}\n\
.key{padding:4px 14px;font-size:12px;border-top-style:solid;border-top-width:1px}\n\
.off{display:none}\n\
.pick,.veil{pointer-events:none}\n\
.veil{opacity:.74}\n\
.new text{font-weight:bold}\n\
@media (max-width:1000px){body{display:block;height:auto}}\n\
body,.say,.left svg:first-child{background:#fff;color:#16181b}\n\
.left,.right,.say,.key,.left svg:first-child,button{border-color:#8d949c}\n\
.key{color:#5f656c}\n\
button{background:#f1f3f5}\n\
.veil{fill:#fff}\n\
.pick{fill:#fff3c4;stroke:#b58900}\n\
.new text,.new .dot,.new .dot-note{fill:#0a7d55}\n\
.new .small-ink{fill:#16181b}\n\
.new .wide,.new .thin,.new .once,.new .asked,.new .task,.new .port{stroke:#0a7d55}\n\
@media (prefers-color-scheme:dark){\n\
body,.say,.left svg:first-child{background:#15181b;color:#eceff1}\n\
.left,.right,.say,.key,.left svg:first-child,button{border-color:#6f767d}\n\
.key{color:#a2a9b0}\n\
button{background:#1f2428}\n\
.veil{fill:#15181b}\n\
.pick{fill:#3c3416;stroke:#b98a2a}\n\
.new text,.new .dot,.new .dot-note{fill:#5fd7a7}\n\
.new .small-ink{fill:#16181b}\n\
.new .wide,.new .thin,.new .once,.new .asked,.new .task,.new .port{stroke:#5fd7a7}\n\
}\n\
";
