//! What colours and letters a picture has, and what says so.

/// The colours and letters, in light and in dark, the hatching, and the heads of arrows.
pub const STYLE: &str = "\
<style>
svg{background:#fff;font-family:monospace}
text{fill:#222;font-size:10px}.Wide text{font-size:11px}.Narrow text,.Flat text{font-size:9px}
text.name{font-weight:bold}text.flat{font-size:9px}text.wait{fill:#8a4b00;font-style:italic}
.Wide text.wait{font-size:9px}text.fault{fill:#b0433b}
text.name,text.what,text.reply,text.fault,text.flat,text.wait{paint-order:stroke;stroke:#fff;stroke-width:1.6px;stroke-opacity:.7}
text.step,text.deed{text-anchor:middle}text.step{fill:#666}text.hid{display:none}
text.core,text.head{font-weight:bold;font-size:11px}.Flat text.core{font-size:10px}
.Flat text.step{font-size:7px}.Narrow text.what{font-size:8px}
text.note{fill:#555;font-size:10px}
.grid{stroke:#eee}.lane{stroke:#ccc}
.told{stroke:#b0433b;stroke-width:1.6;marker-end:url(#told)}
.back{stroke:#3b8f5a;stroke-width:1.4;stroke-dasharray:4 3;marker-end:url(#back)}
.ask{fill:#b0433b}.answer{fill:#3b8f5a}
.mmap,.munmap,.mprotect,.load,.store,.fetch{fill-opacity:.75}
.mmap{fill:#d3e6e6;stroke:#3f7f7f}.munmap{fill:#f3d3d3;stroke:#b0433b}.mprotect{fill:#e6daf2;stroke:#8a5fb5}
.load{fill:#d9efdf;stroke:#2f7d4c}.store{fill:#f6e3c4;stroke:#a8650f}.fetch{fill:#d5e4f4;stroke:#2f6fb0}
.take{fill:#fff6d8;stroke:#a98}.spot{fill:#eee;stroke:#aaa}
.danger{fill:url(#danger);stroke:#b0433b;stroke-dasharray:3 2}.stripe{fill:#e08a83}
.none{fill:#ddd}.read{fill:#d9efdf}.write{fill:#f6e3c4}.exec{fill:#d5e4f4}.both{fill:#f3d3d3}
@media (prefers-color-scheme:dark){
svg{background:#16181c}text{fill:#ddd}text.step,text.note{fill:#aaa}text.wait{fill:#f0b36a}text.fault{fill:#ff9b92}
text.name,text.what,text.reply,text.fault,text.flat,text.wait{stroke:#16181c}text.prot,text.deed{fill:#222}
.grid{stroke:#25282d}.lane{stroke:#444}
.told{stroke:#e0786f}.back{stroke:#6cc08a}.ask{fill:#e0786f}.answer{fill:#6cc08a}
.mmap{fill:#234848}.munmap{fill:#5a2a2a}.mprotect{fill:#3f2f55}.load{fill:#1f4a30}.store{fill:#533a12}.fetch{fill:#1f3d5c}
.take{fill:#d8c98a}.spot{fill:#999}.danger{stroke:#e0786f}.stripe{fill:#8a3c36}
.none{fill:#999}.read{fill:#9cc7a8}.write{fill:#d3b883}.exec{fill:#9db8d3}.both{fill:#d09a9a}}
</style>
<defs>
<pattern id=\"danger\" width=\"7\" height=\"7\" patternUnits=\"userSpaceOnUse\" patternTransform=\"rotate(45)\">
<rect class=\"stripe\" width=\"2.6\" height=\"7\"/></pattern>
<marker id=\"told\" markerWidth=\"7\" markerHeight=\"7\" refX=\"6\" refY=\"3\" orient=\"auto\">
<path class=\"ask\" d=\"M0,0 L6,3 L0,6 z\"/></marker>
<marker id=\"back\" markerWidth=\"7\" markerHeight=\"7\" refX=\"6\" refY=\"3\" orient=\"auto\">
<path class=\"answer\" d=\"M0,0 L6,3 L0,6 z\"/></marker>
</defs>
";

/// The legend, at the place at which it stands.
pub const LEGEND: &str = "\
<text class=\"note\" x=\"8\" y=\"10\">pages:</text>
<rect class=\"none\" x=\"60\" width=\"14\" height=\"12\"/><text class=\"note\" x=\"79\" y=\"10\">no rights</text>
<rect class=\"read\" x=\"150\" width=\"14\" height=\"12\"/><text class=\"note\" x=\"169\" y=\"10\">read</text>
<rect class=\"write\" x=\"212\" width=\"14\" height=\"12\"/><text class=\"note\" x=\"231\" y=\"10\">write</text>
<rect class=\"exec\" x=\"280\" width=\"14\" height=\"12\"/><text class=\"note\" x=\"299\" y=\"10\">execute</text>
<rect class=\"both\" x=\"360\" width=\"14\" height=\"12\"/><text class=\"note\" x=\"379\" y=\"10\">write and execute</text>
<text class=\"note\" x=\"8\" y=\"30\">cores:</text>
<rect class=\"danger\" x=\"60\" y=\"20\" width=\"24\" height=\"12\"/>
<text class=\"note\" x=\"89\" y=\"30\">told to drop translations, and may use them</text>
<line class=\"told\" x1=\"370\" y1=\"26\" x2=\"394\" y2=\"26\"/>
<text class=\"note\" x=\"399\" y=\"30\">message, first take</text>
<line class=\"back\" x1=\"530\" y1=\"26\" x2=\"554\" y2=\"26\"/>
<text class=\"note\" x=\"559\" y=\"30\">acknowledged, second take</text>
";
