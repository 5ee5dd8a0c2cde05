//! The page around its data, as bench/page_template.py makes it of page.html, page.css and page.js.

/// What comes before the data.
pub const FRONT: &str = "\
<!DOCTYPE html>\n<html lang=\"en\">\n<head>\n<meta charset=\"utf-8\">\n<meta name=\"viewport\" content=\"width=d\
evice-width, initial-scale=1\">\n<title>RadixVM: a trace, step by step</title>\n<style>\n:root { color-scheme: l\
ight dark; --back: #f7f8f9; --card: #fff; --ink: #15191e; --faint: #525c67; --edge: #c5ccd4; --line: #e6effb;\n-\
-mark: #1a53b0;\n--new: #fff0b3; --newedge: #8a5a00; --gone: #8d1d14; --going: #b3001b; --ongoing: #fff; --strip\
e: #efa3a9; --change: #ffcf91;\n--changeedge: #a84a00;\n--access: #dceaff; --accessedge: #1746c2; --deed: #e4e7e\
b; --deededge: #59636e; --told: #6b21a8; }\n@media (prefers-color-scheme: dark) { :root { --back: #0f1216; --car\
d: #191e24; --ink: #f0f3f6; --faint: #a9b4bf; --edge: #3e4852;\n--line: #1f3350;\n--mark: #8dbbff; --new: #4d3f0\
8; --newedge: #f2c14a; --gone: #ffb0a6; --going: #ff6b6b; --ongoing: #1c0303; --stripe: #7a2a31;\n--change: #6b3\
f08;\n--changeedge: #ffb454; --access: #14376f; --accessedge: #82b6ff; --deed: #2b323a; --deededge: #a9b4bf; --t\
old: #d9b0ff; } }\n* { box-sizing: border-box; }\nhtml { font-size: clamp(16px, .5rem + .75vw, 24px); }\nbody { \
margin: 0; background: var(--back); color: var(--ink); font: 1rem/1.4 system-ui, \"DejaVu Sans\", sans-serif; he\
ight: 100vh;\ndisplay: flex; flex-direction: column; }\ncode, .mono { font-family: ui-monospace, \"DejaVu Sans M\
ono\", Menlo, Consolas, monospace; }\n:focus-visible { outline: 3px solid var(--mark); outline-offset: 1px; }\n.\
skip { position: absolute; left: -99rem; }\n.skip:focus { left: 1rem; top: .5rem; background: var(--card); paddi\
ng: .4rem .8rem; z-index: 9; }\nheader { display: flex; flex-wrap: wrap; gap: .3rem 1rem; align-items: center; p\
adding: .35rem 1rem; }\nh1 { font-size: 1rem; margin: 0; }\nnav { display: flex; gap: .35rem; align-items: cente\
r; }\nbutton { font: inherit; color: inherit; background: var(--card); border: 1px solid var(--deededge); border\
-radius: .4rem;\npadding: .15rem .7rem; min-height: 2rem; cursor: pointer; }\nbutton:hover:not(:disabled) { back\
ground: var(--line); }\nbutton:disabled { color: var(--faint); border-style: dashed; cursor: default; }\nlabel { \
display: inline-flex; gap: .4rem; align-items: center; min-height: 2rem; }\n#where { margin: 0 0 0 auto; color: \
var(--faint); }\n#strip { position: relative; margin: 0 1rem; border: 1px solid var(--edge); border-radius: .4re\
m; background: var(--card); overflow-x: auto;\noverflow-y: hidden; flex: none; }\n#grid { position: relative; di\
splay: grid; min-width: 100%; padding: 0 .3rem; isolation: isolate; cursor: pointer; user-select: none; }\n#grid \
.no { grid-row: 1; font-size: .75rem; line-height: 1.2rem; text-align: center; color: var(--faint); white-space: \
nowrap; }\n#grid .no.at { color: var(--mark); font-weight: 700; }\n#grid .said { grid-row: 1; justify-self: cent\
er; align-self: center; width: .4rem; height: .4rem; border-radius: 50%;\nbackground: var(--deededge); }\n#grid \
.name { grid-column: 1 / -1; justify-self: start; font-size: .8rem; font-weight: 700; align-self: center; white-\
space: nowrap;\npadding-right: .5rem; position: sticky; left: 0; background: var(--card); z-index: 3; pointer-ev\
ents: none; }\n#grid .row { grid-column: 1 / -1; border-top: 1px solid var(--edge); height: 1.75rem; }\n#grid .b\
ar { z-index: 1; margin: .2rem 1px; border: 1px solid var(--deededge); border-radius: .25rem; background: var(--\
deed);\nfont: .75rem/1.2rem ui-monospace, \"DejaVu Sans Mono\", monospace;\npadding: 0 .25rem; overflow: hidden; \
white-space: nowrap; min-width: 0; }\n#grid .bar.change { background: var(--change); border-color: var(--changee\
dge); border-radius: 0; border-left-width: 4px; }\n#grid .bar.access { background: var(--access); border-color: \
var(--accessedge); }\n#grid .bar.take { border-style: dashed; border-color: var(--told); }\n#grid .bar.later { b\
ackground: none; border-style: dotted; color: var(--faint); }\n#grid .danger { align-self: stretch; margin: 1px \
0; background: repeating-linear-gradient(45deg, var(--stripe) 0 5px, transparent 5px 10px);\nborder: 1px solid v\
ar(--going); }\n#grid .danger.later { visibility: hidden; }\n#grid .head { grid-row: 1 / -1; z-index: 2; border: \
2px solid var(--mark); border-radius: .25rem; pointer-events: none; margin: 0 -1px; }\n#grid .past { grid-row: 1 \
/ -1; background: var(--line); pointer-events: none; z-index: -1; }\n.crowd { max-height: 34vh; overflow-y: auto \
!important; }\n.crowd #grid .row { height: .8rem; }\n.crowd #grid .bar { font-size: 0; margin: 1px; padding: 0; \
}\n.crowd #grid .name { font-size: .75rem; line-height: .8rem; }\n#caption { margin: .45rem 1rem .4rem; min-heig\
ht: 4.9rem; flex: none; }\n#caption p { margin: 0; }\n#does { font-size: 1.3rem; line-height: 1.3; font-weight: \
600; text-wrap: pretty; }\n#does code { font-weight: 700; }\n#also { font-size: 1rem; line-height: 1.35; color: \
var(--ink); }\n#author { font-size: .95rem; color: var(--faint); font-style: italic; }\nmain { flex: 1; min-heig\
ht: 0; display: grid; grid-template-columns: minmax(15.5rem, 21%) minmax(0, 1fr) minmax(19rem, 27%);\nborder-top\
: 1px solid var(--edge); }\nmain > section { overflow: auto; padding: .5rem .8rem; min-width: 0; }\nmain > secti\
on + section { border-left: 1px solid var(--edge); }\nh2 { font-size: .85rem; margin: .5rem 0 .25rem; color: var\
(--faint); font-weight: 700; }\nh2:first-child { margin-top: 0; }\n#trace { padding: .3rem 0; }\n#lines { list-s\
tyle: none; margin: 0; padding: 0; font: .8rem/1.5 ui-monospace, \"DejaVu Sans Mono\", monospace; }\n#lines a { \
display: grid; grid-template-columns: 2.6em 1fr; padding: 0 .5rem 0 .2rem; color: inherit; text-decoration: none\
;\nborder-left: .25rem solid transparent; }\n#lines a:hover { background: var(--line); }\n#lines a[aria-current] \
{ background: var(--line); border-left-color: var(--mark); font-weight: 700; }\n#lines .number { color: var(--fa\
int); text-align: right; padding-right: .7em; font-weight: 400; }\n#lines .text { overflow-wrap: anywhere; }\n#l\
ines .comment { color: var(--faint); white-space: nowrap; overflow: hidden; text-overflow: ellipsis; }\n#lines .\
reply { color: var(--mark); }\n#lines .log { display: none; color: var(--faint); font-weight: 400; }\n#lines a[a\
ria-current] .log { display: block; }\n#lines .later, #lines a[aria-current] .log.later { display: none; }\n.cor\
es { display: grid; grid-template-columns: repeat(auto-fill, minmax(15rem, 1fr)); gap: .5rem 2.2rem; }\n.card { \
background: var(--card); border: 1px solid var(--edge); border-radius: .5rem; padding: .4rem .6rem .5rem; min-wi\
dth: 0; }\n.card.acts { border-color: var(--mark); box-shadow: 0 0 0 2px var(--mark); }\n.card h3 { margin: 0; f\
ont-size: 1rem; display: flex; gap: .5rem; align-items: center; flex-wrap: wrap; }\n.card h3 .tag { font-size: .\
75rem; font-weight: 400; color: var(--faint); }\n.card h4 { margin: .35rem 0 .1rem; font-size: .75rem; color: va\
r(--faint); font-weight: 700; }\n.card.idle { padding-bottom: .2rem; border-style: dashed; }\n.rest { margin: .5\
rem 0 0; font-size: .85rem; color: var(--faint); }\n.item { display: block; font: .85rem/1.35 ui-monospace, \"De\
jaVu Sans Mono\", monospace; border: 1px solid var(--edge);\nborder-left: .35rem solid var(--hue, var(--deededge\
));\nborder-radius: .3rem; padding: .05rem .4rem; background: var(--card); overflow-wrap: anywhere; margin: .15r\
em 0; }\n.item .holds { display: block; font-size: .75rem; color: var(--faint); }\n.item.new .holds { color: inh\
erit; }\n.item .was { display: block; color: var(--gone); text-decoration: line-through; font-size: .75rem; }\n.\
item.new { background: var(--new); border-color: var(--newedge); border-left-color: var(--hue, var(--newedge)); \
}\n.item.gone { color: var(--gone); text-decoration: line-through; border-style: dashed; border-color: var(--gon\
e);\nborder-left-color: var(--hue, var(--gone)); background: none; }\n.item.new::before, .cell.new::before, .chi\
p.new::before { content: \"+ \"; font-weight: 700; }\n.item.gone::before, .cell.gone::before, .chip.gone::before \
{ content: \"\\2212 \"; font-weight: 700; display: inline-block;\ntext-decoration: none; margin-right: .3em; }\n\
.item.changed::before, .cell.changed::before { content: \"\\25b2\"; font-size: .7em; margin-right: .4em; }\n.twi\
ns { border-collapse: separate; border-spacing: 0 .15rem; width: 100%; font: .85rem/1.35 ui-monospace, \"DejaVu \
Sans Mono\", monospace; }\n.twins th { font: 700 .75rem/1.3 system-ui, \"DejaVu Sans\", sans-serif; color: var(-\
-faint); text-align: left; padding: 0 .3rem; }\n.twins td { padding: .05rem .3rem; }\n.twins td.page { border-le\
ft: .35rem solid var(--hue, var(--deededge)); padding-left: .4rem; }\n.twins small { display: block; font-size: \
.75rem; color: var(--faint); }\n.cell { border: 1px solid var(--edge); border-radius: .3rem; background: var(--c\
ard); width: 4.9rem; }\n.cell.none { border-color: transparent; background: none; color: var(--faint); text-alig\
n: center; }\n.cell.new { background: var(--new); border-color: var(--newedge); }\n.cell.gone { color: var(--gon\
e); text-decoration: line-through; border: 1px dashed var(--gone); background: none; }\n.cell.going, .chip.going\
, .key.going { background: var(--going); color: var(--ongoing); border-color: var(--going); font-weight: 700; }\
\n.cell.going.changed { box-shadow: 0 0 0 2px var(--newedge); }\n.mapping { border: 1px solid var(--edge); borde\
r-left: .35rem solid var(--hue); border-radius: .3rem; background: var(--card);\nmargin: .2rem 0; padding: .1rem \
.4rem .15rem; font: .85rem/1.35 ui-monospace, \"DejaVu Sans Mono\", monospace; }\n.mapping.new { background: var\
(--new); border-color: var(--newedge); border-left-color: var(--hue); }\n.mapping.gone { color: var(--gone); bor\
der-style: dashed; border-color: var(--gone); text-decoration: line-through; background: none; }\n.mapping > ul \
{ list-style: none; margin: 0; padding: 0; }\n.mapping li { display: grid; grid-template-columns: 1fr 4.8em 1fr; \
gap: 0 .4rem; border-top: 1px dotted var(--edge); }\n.mapping li.new { background: var(--new); color: var(--ink)\
; }\n.mapping li.gone { color: var(--gone); text-decoration: line-through; }\n.frames { display: grid; grid-temp\
late-columns: repeat(auto-fill, minmax(9rem, 1fr)); gap: .5rem; }\n.frame { border: 2px solid var(--hue, var(--d\
eededge)); border-radius: .4rem; background: var(--card); padding: .25rem .45rem .35rem; }\n.frame.new { backgro\
und: var(--new); }\n.frame.gone { border-style: dashed; color: var(--gone); }\n.frame.free { border-style: dotte\
d; }\n.frame h3 { margin: 0; font-size: .9rem; }\n.frame p { margin: 0; font: .8rem/1.35 ui-monospace, \"DejaVu \
Sans Mono\", monospace; }\n.frame .sum.new { background: var(--new); outline: 1px solid var(--newedge); }\n.fram\
e ul { list-style: none; margin: .2rem 0 0; padding: 0; display: flex; flex-wrap: wrap; gap: .2rem; }\n.chip { f\
ont: .75rem/1.4 ui-monospace, \"DejaVu Sans Mono\", monospace; border: 1px solid var(--deededge); border-radius: \
.8rem;\npadding: 0 .4rem; background: var(--card); }\n.chip.new { background: var(--new); border-color: var(--ne\
wedge); }\n.chip.gone { color: var(--gone); text-decoration: line-through; border: 1px dashed var(--gone); backg\
round: none; }\n.lit { outline: 3px solid var(--mark); outline-offset: 1px; }\n#arrows { position: absolute; lef\
t: 0; top: 0; pointer-events: none; overflow: visible; z-index: 1; }\n#arrows path.message { fill: none; stroke: \
var(--told); stroke-width: 2.5; }\n#arrows path.half { stroke-dasharray: 7 4; }\n#arrows marker path { fill: var\
(--told); }\n#state { position: relative; }\nfooter { display: flex; flex-wrap: wrap; gap: .2rem 1rem; align-ite\
ms: center; padding: .3rem 1rem; border-top: 1px solid var(--edge);\nfont-size: .8rem; color: var(--ink); flex: \
none; }\n.key { display: inline-block; font: .75rem/1.3 ui-monospace, \"DejaVu Sans Mono\", monospace; border: 1\
px solid var(--edge);\nborder-radius: .3rem; padding: 0 .35rem; margin-right: .3rem; background: var(--card); }\
\n.key.new { background: var(--new); border-color: var(--newedge); } .key.new::before { content: \"+\"; }\n.key.\
gone { color: var(--gone); border: 1px dashed var(--gone); text-decoration: line-through; background: none; }\n.\
key.stripes { background: repeating-linear-gradient(45deg, var(--stripe) 0 5px, transparent 5px 10px); border-co\
lor: var(--going);\nwidth: 2rem; }\n.key.arrow { border: 0; color: var(--told); font-weight: 700; background: no\
ne; padding: 0; }\ndetails { margin-top: .6rem; }\n#text { font: .8rem/1.35 ui-monospace, \"DejaVu Sans Mono\", \
monospace; white-space: pre-wrap; margin: .3rem 0; }\n#handout { display: none; }\n@media (max-width: 62rem) {\n\
body { height: auto; padding-bottom: 3.6rem; }\nheader { padding: .3rem .7rem; }\nnav { position: fixed; left: 0\
; right: 0; bottom: 0; z-index: 5; background: var(--back); border-top: 1px solid var(--edge);\npadding: .35rem \
.5rem; justify-content: space-between; }\nnav button { min-height: 2.75rem; flex: 1; padding: .15rem .1rem; whit\
e-space: nowrap; font-size: .92rem; }\n.top { position: sticky; top: 0; z-index: 4; background: var(--back); pad\
ding-top: .3rem; border-bottom: 1px solid var(--edge); }\n#strip { margin: 0 .5rem; }\n#caption { margin: .4rem \
.7rem; min-height: 0; }\n#does { font-size: 1.1rem; } #also { font-size: .95rem; }\nmain { display: flex; flex-d\
irection: column; }\nmain > section { overflow: visible; border-left: 0 !important; }\n#trace { order: 3; border\
-top: 1px solid var(--edge); } #memory { order: 2; } #state { order: 1; }\n.cores { gap: .6rem; }\n#lines a { pa\
dding-top: .3rem; padding-bottom: .3rem; }\n#lines .comment { white-space: normal; }\n}\n@media print {\n:root { \
color-scheme: light; --back: #fff; --card: #fff; --ink: #000; --faint: #444; --edge: #999; --line: #e6effb; --ne\
w: #fff0b3;\n--newedge: #8a5a00; --gone: #8d1d14; --going: #b3001b; --ongoing: #fff;\n--stripe: #efa3a9; --chang\
e: #ffcf91; --changeedge: #a84a00; --access: #dceaff; --accessedge: #1746c2; --deed: #e4e7eb;\n--deededge: #5963\
6e; --told: #6b21a8; --mark: #1a53b0; }\n* { print-color-adjust: exact; -webkit-print-color-adjust: exact; }\n@p\
age { size: A4 landscape; margin: 12mm; }\nhtml { font-size: 12px; }\nbody { height: auto; display: block; paddi\
ng: 0; }\nnav, label, #trace, details, .skip { display: none; }\n.top { position: static; }\n#strip { overflow: \
visible; break-inside: avoid; }\nmain { display: grid; grid-template-columns: minmax(0, 1fr) 34%; border: 0; }\n\
main > section { overflow: visible; }\n.card, .frame, .mapping, #handout li { break-inside: avoid; }\n#handout { \
display: block; break-before: page; margin: 0 1rem; }\n#handout ol { list-style: none; padding: 0; margin: 0; co\
lumns: 2; column-gap: 2rem; }\n#handout li { margin: 0 0 .5rem; }\n#handout code { font-weight: 700; }\n#arrows \
{ display: none; }\n}\n@media (forced-colors: active) { .cell.going, .chip.going { outline: 3px solid Highlight; \
} }\n</style>\n</head>\n<body>\n<a class=\"skip\" href=\"#state\">To the state</a>\n<div class=\"top\">\n<header\
>\n<h1 id=\"title\">RadixVM</h1>\n<nav aria-label=\"Steps\">\n<button id=\"first\" aria-keyshortcuts=\"Home\" ti\
tle=\"To the start (Home)\">&#8676; First</button>\n<button id=\"back\" aria-keyshortcuts=\"ArrowLeft\" title=\"\
Back (left arrow or k)\">&#8592; Back</button>\n<button id=\"next\" aria-keyshortcuts=\"ArrowRight\" title=\"For\
ward (right arrow, space or j)\">Forward &#8594;</button>\n<button id=\"last\" aria-keyshortcuts=\"End\" title=\
\"To the end (End)\">Last &#8677;</button>\n</nav>\n<label><input type=\"checkbox\" id=\"fine\" aria-keyshortcut\
s=\"s\"> each step of a call (s)</label>\n<p id=\"where\"></p>\n</header>\n<div id=\"strip\" role=\"slider\" tab\
index=\"0\" aria-label=\"Line of the trace\" aria-valuemin=\"0\"><div id=\"grid\" aria-hidden=\"true\"></div></d\
iv>\n<div id=\"caption\" role=\"status\" aria-live=\"polite\" aria-atomic=\"true\">\n<p id=\"does\"></p><p id=\"\
also\"></p><p id=\"author\"></p>\n</div>\n</div>\n<main>\n<section id=\"trace\" aria-label=\"The trace\"><ol id=\
\"lines\"></ol></section>\n<section id=\"state\" aria-label=\"Cores\" tabindex=\"0\">\n<svg id=\"arrows\" aria-h\
idden=\"true\"><defs>\n<marker id=\"tip\" viewBox=\"0 0 8 8\" refX=\"7\" refY=\"4\" markerWidth=\"5\" markerHeig\
ht=\"5\" orient=\"auto\"><path d=\"M0 0 8 4 0 8z\"/></marker>\n</defs><g></g></svg>\n<div id=\"cores\"></div>\n<\
/section>\n<section id=\"memory\" aria-label=\"Mappings and frames\" tabindex=\"0\"><div id=\"below\"></div>\n<d\
etails><summary>The state as text</summary><pre id=\"text\" tabindex=\"0\"></pre></details></section>\n</main>\n\
<footer aria-label=\"Legend\">\n<span><span class=\"key new\">new</span>by this step</span>\n<span><span class=\
\"key gone\">gone</span>by this step</span>\n<span><span class=\"key going\">stale</span>its core is asked to dr\
op it, and may still use it</span>\n<span><span class=\"key stripes\">&nbsp;</span>a core has stale translations\
</span>\n<span><span class=\"key arrow\">&#8594;</span>message, no take yet</span>\n<span><span class=\"key arro\
w\">&#8674;</span>taken once</span>\n</footer>\n<section id=\"handout\" aria-hidden=\"true\"></section>\n<noscri\
pt><p>This page draws its states by a script.</p></noscript>\n<script type=\"application/json\" id=\"data\">\n";

/// What comes after it.
pub const BACK: &str = "\
</script>\n<script>\n\"use strict\";\nconst data = JSON.parse(document.getElementById(\"data\").textContent);\nc\
onst byId = (id) => document.getElementById(id);\nconst lines = data.trace.replace(/\\n$/, \"\").split(\"\\n\");\
\nconst groups = data.steps.slice(1).map((group) => group.slice(1));\nfunction applied(text, change) {\nlet at = \
0;\nlet out = \"\";\nfor (const part of change) {\nif (typeof part === \"string\")\nout += part;\nelse if (part \
< 0)\nat -= part;\nelse {\nout += text.slice(at, at + part);\nat += part;\n}\n}\nreturn out + text.slice(at);\n}\
\nconst states = [data.first];\nfor (const group of groups) states.push(group.reduce(applied, states[states.leng\
th - 1]));\nconst kept = {\nline: 0,\ntexts: []\n};\nfunction stateAt(line, step) {\nif (kept.line !== line) Obj\
ect.assign(kept, {line, texts: [states[line - 1]]});\nfor (let at = kept.texts.length; at <= step; at += 1) kept\
.texts.push(applied(kept.texts[at - 1], groups[line - 1][at - 1]));\nreturn kept.texts[step];\n}\nconst partsOf \
= (text) => text.split(\"\\n\").slice(0, -1);\nconst shown = data.shown.split(\"\\n\").slice(0, -1);\nconst repl\
ies = groups.map((group) => (group.length ? shown.shift() : \"\"));\nconst logs = groups.map(() => []);\nfor (co\
nst entry of shown) {\nlet left = Number(entry.split(\" \")[1]);\nconst line = groups.findIndex((group) => (left \
-= group.length) <= 0);\nif (line >= 0) logs[line].push(entry);\n}\nfunction element(name, kind, text) {\nconst \
made = document.createElement(name);\nif (kind) made.className = kind;\nif (text !== undefined) made.textContent \
= text;\nreturn made;\n}\nconst range = /^(0x[0-9a-f]+)-(0x[0-9a-f]+) (.*)$/;\nconst hex = (number) => \"0x\" + \
number.toString(16);\nfunction stateOf(text) {\nconst state = {text, epoch: 0, cores: new Map(), mappings: [], p\
ages: new Map(), frames: new Map()};\nconst coreOf = (core) => {\nif (!state.cores.has(core))\nstate.cores.set(c\
ore, {call: null, holds: [], took: [], inbox: [], tlb: [], table: [], count: [], queue: [], flushed: false});\nr\
eturn state.cores.get(core);\n};\nfor (const line of partsOf(text)) {\nconst core = /^core (\\d+) (\\S+) ?(.*)$/\
.exec(line);\nconst mapping = range.exec(line);\nif (core) {\nconst [own, kind, rest] = [coreOf(Number(core[1]))\
, core[2], core[3]];\nconst word = rest.split(\" \");\nif (kind === \"tlb\" || kind === \"table\")\nown[kind].pu\
sh({line, page: word[0], frame: word[2], rights: word[3], going: (/stale: (\\w+)/.exec(rest) || [])[1]});\nelse \
if (kind === \"inbox\")\nown.inbox.push({line, from: Number(word[1]), pages: word[2], due: word[3]});\nelse if (\
kind === \"count\")\nown.count.push({line, frame: word[1], by: word[2]});\nelse if (kind === \"queue\")\nown.que\
ue.push({line, frame: word[1], epoch: Number(word[3])});\nelse if (kind === \"holds\")\nown.holds.push(rest);\ne\
lse if (kind === \"took\")\nown.took.push(word[1]);\nelse if (kind === \"flushed\")\nown.flushed = true;\nelse\n\
own.call = {line, name: kind, does: rest};\n} else if (mapping)\nstate.mappings.push({line, start: Number(mappin\
g[1]), end: Number(mapping[2]), words: mapping[3]});\nelse if (line.startsWith(\"page \")) {\nconst found = /^pa\
ge (\\S+)(?: frame (\\d+))?(?: cores (.*))?$/.exec(line);\nstate.pages.set(found[1], {line, page: found[1], fram\
e: found[2], cores: found[3] ? found[3].split(\" \").map(Number) : []});\n} else if (line.startsWith(\"frame \")\
) {\nconst found = /^frame (\\d+) count (-?\\d+) global (-?\\d+)( dirty)?$/.exec(line);\nstate.frames.set(found[\
1], {line, frame: found[1], count: found[2], global: found[3], dirty: Boolean(found[4])});\n} else if (line.star\
tsWith(\"epoch \"))\nstate.epoch = Number(line.split(\" \")[1]);\n}\nreturn state;\n}\nconst noCore = {\ncall: n\
ull,\nholds: [],\ntook: [],\ninbox: [],\ntlb: [],\ntable: [],\ncount: [],\nqueue: [],\nflushed: false\n};\nconst \
coreIn = (state, core) => state.cores.get(core) || noCore;\nconst said = lines.find((line) => /^\\s*vm\\s/.test(\
line));\nconst coreCount = said ? Number(said.trim().split(/\\s+/)[1]) : 1;\nconst events = lines.map((line) => \
{\nconst words = line.trim().split(/\\s+/);\nconst call = /^c(\\d+)(!)?$/.exec(words[0]);\nif (line.startsWith(\
\"#\")) return {kind: \"comment\"};\nif (!call) return {kind: words[0] === \"fold\" ? \"fold\" : \"head\", words\
};\nconst how = call[2] ? \"call\" : words[1];\nconst request = call[2] ? words.slice(1) : how === \"call\" ? wo\
rds.slice(2) : null;\nreturn {kind: request ? \"call\" : how, core: Number(call[1]), request, begun: how === \"c\
all\" && !call[2], words};\n});\nconst changes = [\"mmap\", \"munmap\", \"mprotect\"];\nconst bars = [];\nconst \
open = new Map();\nevents.forEach((event, index) => {\nif (event.core === undefined) {\nif (event.kind === \"fol\
d\") bars.push({core: -1, from: index, to: index, kind: \"deed\", text: \"fold\"});\nreturn;\n}\nconst ends = !/\
^(wait|step|idle|full|stuck)\\b/.test(replies[index]);\nif (event.request) {\nconst bar = {\ncore: event.core,\n\
from: index,\nto: index,\nkind: changes.includes(event.request[0]) ? \"change\" : \"access\",\ntext: event.reque\
st[0],\nanswered: ends\n};\nbars.push(bar);\nif (!ends) open.set(event.core, bar);\n} else if (event.kind === \"\
go\" || event.kind === \"finish\") {\nif (open.has(event.core)) Object.assign(open.get(event.core), {to: index, \
answered: ends});\nif (ends) open.delete(event.core);\n} else {\nconst due = event.kind === \"take\" &&\n(new Re\
gExp(`^core ${event.core} inbox .* (first|second) take due`, \"m\").exec(states[index]) || [])[1];\nbars.push({\
\ncore: event.core,\nfrom: index,\nto: index,\nkind: due ? \"take\" : \"deed\",\ntext: event.kind + (due ? (due \
=== \"first\" ? \" 1\" : \" 2\") : \"\"),\nanswered: replies[index] === \"idle\"\n});\n}\n});\nfor (const bar of \
open.values()) bar.to = lines.length - 1;\nconst dangers = [];\nconst stale = new Map();\nstates.forEach((text, \
line) => {\nconst now = new Set([...text.matchAll(/^core (\\d+) (?:tlb|table) .* stale/gm)].map((found) => Numbe\
r(found[1])));\nfor (const core of now)\nif (!stale.has(core)) stale.set(core, line);\nfor (const [core, begun] \
of [...stale])\nif (!now.has(core) || line === lines.length) {\ndangers.push({core, from: begun - 1, to: line - \
1});\nstale.delete(core);\n}\n});\nconst codes = (text) => `\\u0001${text}\\u0002`;  // what stands between the \
two is code\nconst list = (parts) => (parts.length < 2 ? parts.join(\"\") : `${parts.slice(0, -1).join(\", \")} \
and ${parts[parts.length - 1]}`);\nconst big = (text) => text.charAt(0).toUpperCase() + text.slice(1);\nconst co\
res = (numbers) => (numbers.length === 1 ? `core ${numbers[0]}` : `cores ${list(numbers.map(String))}`);\nconst \
ordinal = (due) => (due === \"first\" ? \"for the first time\" : \"for the second time\");\nfunction pagesFrom(s\
tart, end) {\nconst count = (end - start) / 4096;\nreturn count === 1 ? `page ${codes(hex(start))}` : `${count} \
pages from ${codes(hex(start))} on`;\n}\nfunction pagesOf(text) {\nconst found = /^(0x[0-9a-f]+)(?:-(0x[0-9a-f]+\
))?$/.exec(text);\nreturn found ? pagesFrom(Number(found[1]), found[2] ? Number(found[2]) : Number(found[1]) + 4\
096) : text;\n}\nconst spanOf = (request) =>\npagesFrom(Math.floor(Number(request[1]) / 4096) * 4096, Math.ceil(\
(Number(request[1]) + Number(request[2])) / 4096) * 4096);\nfunction asked(request) {\nconst [name, at] = reques\
t;\nif (name === \"mmap\")\nreturn `maps ${spanOf(request)}, ${codes(request[3])}, ${\nrequest[4].includes(\"a\"\
) ? \"with bytes of zero\" :\n`of file ${request[5]}, ${request[4].includes(\"s\") ? \"shared\" : \"private\"}`}\
`;\nif (name === \"munmap\") return `unmaps ${spanOf(request)}`;\nif (name === \"mprotect\") return `gives ${spa\
nOf(request)} the rights ${codes(request[3])}`;\nif (name === \"store\") return `stores ${codes(request[2])} at \
${codes(at)}`;\nreturn name === \"load\" ? `loads the byte at ${codes(at)}` : `fetches the byte at ${codes(at)}`\
;\n}\nconst refused = {\n\"segv maperr\": \"but no page is mapped there\",\n\"segv accerr\": \"but the page\\u20\
19s rights forbid it\",\nbus: \"but the page lies past its file\\u2019s end\",\nnoframe: \"but no frame is free\
\",\nnomemory: \"but memory was short\"\n};\nfunction answered(request, reply) {\nif (reply === \"done\" || repl\
y.startsWith(\"0x\")) return \"\";\nif (/^\\d+$/.test(reply)) return ` and gets ${codes(reply)}`;\nif (refused[r\
eply]) return `, ${refused[reply]}: ${codes(reply)}`;\nreturn `, and is refused: ${codes(reply)}`;\n}\nconst toD\
o = (words) => words.replace(/^(fetch)es |^(\\w+)s /, \"$1$2 \");  // unmaps: unmap\nfunction waits(reply) {\nco\
nst [, why, ...numbers] = reply.split(\" \");\nconst many = numbers.length > 1;\nif (why === \"acks\")\nreturn `\
it has asked ${cores(numbers)} to drop what ${many ? \"they have\" : \"it has\"} of it, and waits until ${\nmany \
? \"each has\" : \"that core has\"} taken the message twice.`;\nreturn `it needs pages that core ${numbers[0]}\\\
u2019s call holds, and waits.`;\n}\nfunction differences(before, after, skip) {\nconst out = [];\nconst say = (k\
ind, text) => skip.has(kind) || out.push(text);\nconst flat = (state) => state.mappings.map(({start, end, words}\
) => ({start, end, words}));\nconst [old, now] = [flat(before), flat(after)];\nconst edges = [...new Set([...old\
, ...now].flatMap(({start, end}) => [start, end]))].sort((a, b) => a - b);\nconst runs = [];\nfor (let at = 0; a\
t + 1 < edges.length; at += 1) {\nconst find = (all) => (all.find(({start, end}) => start <= edges[at] && edges[\
at] < end) || {words: \"\"}).words.split(\" \")[0];\nconst [was, is] = [find(old), find(now)];\nif (was === is) \
continue;\nconst last = runs[runs.length - 1];\nif (last && last.end === edges[at] && last.was === was && last.i\
s === is)\nlast.end = edges[at + 1];\nelse\nruns.push({start: edges[at], end: edges[at + 1], was, is});\n}\nfor \
(const run of runs) {\nconst pages = big(pagesFrom(run.start, run.end));\nconst verb = run.end - run.start > 409\
6 ? \"are\" : \"is\";\nif (!run.is)\nsay(\"unmapped\", `${pages} ${verb} no longer mapped`);\nelse if (!run.was)\
\nsay(\"mapped\", `${pages} ${verb} mapped`);\nelse\nsay(\"rights\", `${pages} ${verb} ${codes(run.is)} now`);\n\
}\nfor (const [frame, is] of after.frames)\nif (!before.frames.has(frame)) {\nconst page = [...after.pages.value\
s()].find((other) => other.frame === frame);\nsay(\"frame\",\npage ? `page ${codes(page.page)} gets frame ${fram\
e}, which was free` : `frame ${frame}, which was free, is taken`);\n} else if (!after.pages.size && is.dirty && \
!before.frames.get(frame).dirty)\nsay(\"dirty\", `frame ${frame} is dirty`);\nfor (const [page, is] of after.pag\
es) {\nconst was = before.pages.get(page) || {cores: []};\nif (is.frame && was.frame && was.frame !== is.frame)\
\nsay(\"frame\", `page ${codes(page)} has frame ${is.frame} in place of frame ${was.frame}`);\nconst fresh = is.\
cores.filter((core) => !was.cores.includes(core));\nif (fresh.length) say(\"recorded\", `${cores(fresh)} ${fresh\
.length > 1 ? \"are\" : \"is\"} recorded on page ${codes(page)}`);\n}\nfor (let core = 0; core < coreCount; core \
+= 1) {\nconst [was, is] = [coreIn(before, core), coreIn(after, core)];\nconst has = (all, entry) => all.some((o\
ther) => other.page === entry.page && other.frame === entry.frame);\nconst filled = (kind) => is[kind].filter((e\
ntry) => !has(was[kind], entry)).map((entry) => entry.page);\nconst dropped = (kind) => was[kind].filter((entry) \
=> !has(is[kind], entry)).map((entry) => entry.page);\nconst [both, tables] = [filled(\"tlb\"), filled(\"table\"\
)];\nconst twice = both.filter((page) => tables.includes(page));\nif (twice.length) say(\"filled\", `core ${core\
}\\u2019s tables and TLB get ${list(twice.map(codes))}`);\nif (tables.filter((page) => !twice.includes(page)).le\
ngth)\nsay(\"filled\", `core ${core}\\u2019s tables get ${list(tables.filter((page) => !twice.includes(page)).ma\
p(codes))}`);\nif (both.filter((page) => !twice.includes(page)).length)\nsay(\"filled\", `core ${core}\\u2019s T\
LB gets ${list(both.filter((page) => !twice.includes(page)).map(codes))}`);\nconst [lostTlb, lostTable] = [dropp\
ed(\"tlb\"), dropped(\"table\")];\nconst lost = lostTlb.filter((page) => lostTable.includes(page));\nif (lost.le\
ngth) say(\"dropped\", `core ${core} drops ${list(lost.map(codes))} from its tables and TLB`);\nfor (const [page\
s, name] of [\n[lostTlb.filter((page) => !lost.includes(page)), \"TLB\"], [lostTable.filter((page) => !lost.incl\
udes(page)), \"tables\"]])\nif (pages.length) say(\"dropped\", `core ${core} drops ${list(pages.map(codes))} fro\
m its ${name}`);\nconst going = [...is.tlb, ...is.table].filter(\n(entry) => entry.going && ![...was.tlb, ...was\
.table].some((other) => other.page === entry.page && other.going));\nif (going.length)\nsay(\"going\", `core ${c\
ore}\\u2019s translations of ${list([...new Set(going.map((entry) => codes(entry.page)))])} are stale`);\nfor (c\
onst count of is.count) {\nconst other = was.count.find(({frame}) => frame === count.frame);\nif (!other || othe\
r.by !== count.by)\nsay(\"count\",\n`core ${core} keeps ${codes(count.by.replace(\"-\", \"\\u2212\"))} for frame \
${count.frame} to itself: ` +\n`its true count is ${(after.frames.get(count.frame) || {}).count}, the global one \
still ${\n(after.frames.get(count.frame) || {}).global}`);\n}\nfor (const count of was.count)\nif (!is.count.som\
e(({frame}) => frame === count.frame))\nsay(\"added\",\n`${codes(count.by.replace(\"-\", \"\\u2212\"))} is added \
to frame ${count.frame}\\u2019s global count, now ${\n(after.frames.get(count.frame) || {global: 0}).global}`);\
\nfor (const queued of is.queue)\nif (!was.queue.some(({frame, epoch}) => frame === queued.frame && epoch === qu\
eued.epoch))\nsay(\"queue\", `frame ${queued.frame} lies in core ${core}\\u2019s queue, due in epoch ${queued.ep\
och + 2}`);\nif (is.flushed && !was.flushed && before.epoch === after.epoch)\nsay(\"flushed\", `core ${core}\\u2\
019s part of epoch ${after.epoch} has ended`);\nfor (const message of is.inbox)\nif (!was.inbox.some((other) => \
other.from === message.from && other.pages === message.pages))\nsay(\"told\", `core ${core} has a message from c\
ore ${message.from}`);\n}\nif (before.epoch !== after.epoch)\nsay(\"epoch\", `each core has ended its part: epoc\
h ${before.epoch} ends, and ${after.epoch} begins`);\nfor (const frame of before.frames.keys())\nif (!after.fram\
es.has(frame)) say(\"freed\", `frame ${frame} is free again`);\nreturn out;\n}\nfunction served(event, before, s\
kip) {\nconst [name, at] = event.request;\nconst page = hex(Math.floor(Number(at) / 4096) * 4096);\nconst allows \
= (entry) => entry.page === page && (name === \"load\" || entry.rights.includes(name === \"store\" ? \"w\" : \"x\
\"));\nconst own = coreIn(before, event.core);\nfor (const [kind, words] of [[\"tlb\", \"Its TLB\"], [\"table\", \
\"Its TLB hasn\\u2019t the page, but its tables\"]]) {\nconst entry = own[kind].find(allows);\nif (!entry) conti\
nue;\nif (kind === \"table\") skip.add(\"filled\");\nif (!entry.going) return `${words} ${kind === \"tlb\" ? \"t\
ranslates\" : \"have\"} it.`;\nconst waiting = [...before.cores].find(([, other]) => other.call && other.call.do\
es.startsWith(\"awaits cores\"));\nreturn `${words} still ${\nkind === \"tlb\" ? \"translates the page\" : \"hav\
e it\"}. That translation is stale, and may still be used: ` +\n(waiting ? `core ${waiting[0]}\\u2019s ${waiting\
[1].call.name} has no reply yet.` :\n\"its core hasn\\u2019t acknowledged yet.\");\n}\nreturn \"Neither its TLB \
nor its tables allow it: it faults.\";\n}\nconst sentence = (parts) => (parts.length ? big(parts.join(\"; \")) + \
\".\" : \"\");\nfunction tellLine(index) {\nconst event = events[index];\nconst [before, after] = [stateOf(state\
s[index]), stateOf(states[index + 1])];\nconst [reply, skip] = [replies[index], new Set()];\nconst who = `Core $\
{event.core}`;\nconst rest = () => sentence(differences(before, after, skip));\nif (event.kind === \"comment\") \
return {does: \"\", also: \"\"};\nif (event.kind === \"head\")\nreturn {\ndoes: event.words[0] === \"vm\" ?\n`A \
machine with ${coreCount} core${coreCount > 1 ? \"s\" : \"\"} and ${event.words[2]} frames, all free.` :\nevent.\
words[0] === \"file\" ?\n`File ${event.words[1]}: ${event.words[3]} bytes, from ${event.words[4]} on, open for $\
{codes(event.words[2])}.` :\n\"\",\nalso: \"\"\n};\nif (reply === \"idle\")\nreturn {\ndoes: event.kind === \"re\
view\" ?\n`${who} looks at its queue, and no frame is due yet.` :\nevent.kind === \"fold\" ?\n\"Nothing is folde\
d: slots are joined only if no call holds one, none has a frame, and each goes on as the one before.\" :\n`${who\
}\\u2019s ${event.kind} finds nothing to do.`,\nalso: rest()\n};\nif (event.kind === \"fold\")\nreturn {does: `T\
he slots at ${codes(event.words[1])} are alike, and are folded into one.`, also: rest()};\nif (event.kind === \"\
call\") {\nconst request = event.request;\nconst access = !changes.includes(request[0]);\nif (event.begun) retur\
n {does: `${who} begins to ${toDo(asked(request))}.`, also: \"It has made no step of it yet.\"};\nif (reply.star\
tsWith(\"wait\")) {\nreturn {does: `${who} begins to ${toDo(asked(request))}: ${waits(reply)}`, also: (skip.add(\
\"told\"), rest())};\n}\nif (request[0] === \"mmap\") skip.add(\"mapped\");\nif (request[0] === \"munmap\") skip\
.add(\"unmapped\");\nif (request[0] === \"mprotect\") skip.add(\"rights\");\nlet also = access && /^(\\d+|done)$\
/.test(reply) ? served(event, before, skip) : \"\";\nif (reply.startsWith(\"segv\")) skip.add(\"filled\");\nalso \
= [also, rest()].filter(Boolean).join(\" \");\nconst inside = (state) => [...state.pages.values()].filter(\n({pa\
ge}) => Number(page) >= Number(request[1]) && Number(page) < Number(request[1]) + Number(request[2]));\nif (requ\
est[0] === \"mmap\" && reply.startsWith(\"0x\") && !inside(after).some(({frame}) => frame))\nalso = [also, \"No \
page of it has a frame yet: the first access to each will fault.\"].join(\" \");\nif (request[0] === \"munmap\" \
&& reply === \"done\" &&\n!inside(before).some((page) => page.cores.some((core) => core !== event.core)))\nalso \
= [also, \"No other core is recorded on these pages, so no core has to drop anything.\"].join(\" \");\nreturn {d\
oes: `${who} ${asked(request)}${answered(request, reply)}.`, also};\n}\nif (event.kind === \"go\" || event.kind \
=== \"finish\") {\nconst call = coreIn(before, event.core).call;\nconst name = call ? call.name : \"call\";\nif \
(reply.startsWith(\"wait\")) return {does: `${who}\\u2019s ${name} goes on: ${waits(reply)}`, also: rest()};\nif \
(reply === \"step\")\nreturn {does: `${who}\\u2019s ${name} makes a step: it ${call ? plain(call.does) : \"goes \
on\"}.`, also: rest()};\nconst why = refused[reply] ? refused[reply].slice(4) + \", \" : \"\";\nconst end = repl\
y === \"done\" || reply.startsWith(\"0x\") ? \"is done\" :\n/^\\d+$/.test(reply)                                \
? `gets ${codes(reply)}` :\n`ends: ${why}${codes(reply)}`;\nreturn {does: `${who}\\u2019s ${name} goes on, and $\
{end}.`, also: rest()};\n}\nif (event.kind === \"take\") {\nconst message = coreIn(before, event.core).inbox[0];\
\nif (!message) return {does: `${who} takes a message.`, also: rest()};\nskip.add(\"dropped\");\nconst inTlb = c\
oreIn(after, event.core).tlb.filter((entry) => entry.going).map((entry) => codes(entry.page));\nconst again = me\
ssage.due === \"second\";\nconst had = coreIn(before, event.core).tlb.some((entry) => entry.going);\nconst first \
= inTlb.length ? `Its TLB still has ${list(inTlb)}: that translation is stale until the second take.` :\n\"Its T\
LB hasn\\u2019t the page either.\";\nconst [start, end] = message.pages.split(\"-\").map(Number);\nconst still = \
[...after.cores].some(\n([, other]) => [...other.tlb, ...other.table].some(({page}) => Number(page) >= start && \
Number(page) < end));\nconst left =\n[...after.cores].some(([, other]) => other.inbox.some(({from, pages}) => fr\
om === message.from && pages === message.pages));\nconst second = left ? `Core ${message.from} still awaits othe\
rs.` :\n`${still ? \"\" : \"No core has a translation of it any more, and \"}core ${message.from} may go on.`;\n\
return {\ndoes: `${who} takes core ${message.from}\\u2019s message ${ordinal(message.due)}: ${\nagain ? (had ? `\
its TLB drops ${pagesOf(message.pages)}, and` : \"\") + \" it acknowledges\" :\n`its tables lose ${pagesOf(messa\
ge.pages)}`       }.`\n.replace(\":  it\", \": it\"),\nalso: [big(again ? second : first), rest()].filter(Boolea\
n).join(\" \")\n};\n}\nif (event.kind === \"flush\") {\nconst had = coreIn(before, event.core).count[0];\nreturn \
{\ndoes: had ? `${who} flushes: it hands on its change of frame ${had.frame}\\u2019s count.` :\n`${who} flushes, \
and has no count to hand on: its part of epoch ${before.epoch} ends.`,\nalso: (skip.add(had ? \"\" : \"flushed\"\
), rest())\n};\n}\nif (event.kind === \"review\") {\nconst first = coreIn(before, event.core).queue[0];\nreturn \
{\ndoes: first ? `${who} reviews frame ${first.frame}, which was queued in epoch ${first.epoch}.` : `${who} revi\
ews its queue.`,\nalso: first && !after.frames.has(first.frame) ?\n(skip.add(\"freed\"), [`Its count stayed 0 fo\
r two epochs: the frame is free again.`, rest()].join(\" \")) :\nrest()\n};\n}\nconst deeds = {\nwalk: \"TLB is \
filled from its tables\",\nevict: \"TLB drops a page by itself\",\nframe: \"call takes a frame\",\nguess: \"call \
guesses a place\",\nwhole: \"call locks its window\",\ngiveup: \"call is given up\"\n};\nif (event.kind === \"ev\
ict\" || event.kind === \"walk\") skip.add(event.kind === \"evict\" ? \"dropped\" : \"filled\");\nreturn {\ndoes\
: `${who}\\u2019s ${deeds[event.kind] || event.kind}${event.words[2] ? `: ${codes(event.words[2])}` : \"\"}.`,\n\
also: rest()\n};\n}\nconst plain = (does) => does.replace(/0x[0-9a-f]+(-0x[0-9a-f]+)?/g, (text) => pagesOf(text)\
);\nfunction tellStep(index, step) {\nconst [before, after] = [stateOf(stateAt(index + 1, step - 1)), stateOf(st\
ateAt(index + 1, step))];\nconst event = events[index];\nconst call = event.core !== undefined && coreIn(before, \
event.core).call;\nconst also = sentence(differences(before, after, new Set()));\nif (!call)\nreturn {\ndoes: ev\
ent.request ? `Core ${event.core} begins a call: ${codes(event.request.join(\" \"))}.` : tellLine(index).does,\n\
also\n};\nreturn {does: `Core ${event.core}\\u2019s ${call.name} ${plain(call.does)}.`, also};\n}\nfunction put(\
into, text) {\ninto.replaceChildren(\n...text.split(/\\u0001|\\u0002/).map((part, at) => (at % 2 ? element(\"cod\
e\", \"\", part) : document.createTextNode(part))));\n}\nfunction authorOf(index) {\nconst out = [];\nif (index \
>= 0 && events[index].kind === \"comment\")\nout.push(lines[index].replace(/^#\\s*/, \"\"));\nelse\nfor (let at \
= index - 1; at >= 0 && events[at].kind === \"comment\" && !/^# (file|anon) \\S/.test(lines[at]); at -= 1)\nout.\
unshift(lines[at].replace(/^#\\s*/, \"\"));\nreturn out.join(\" \");\n}\nconst links = lines.map((line, index) =\
> {\nconst link = element(\"a\");\nlink.href = \"#\" + (index + 1);\nlink.append(element(\"span\", \"number\", i\
ndex + 1));\nconst text = element(\"span\", line.startsWith(\"#\") ? \"text comment\" : \"text\", line);\nif (li\
ne.startsWith(\"#\")) text.title = line;\nif (replies[index]) text.append(element(\"span\", \"reply\", \" = \" + \
replies[index]));\nfor (const entry of logs[index]) text.append(element(\"span\", \"log\", entry));\nlink.append\
(text);\nconst item = element(\"li\");\nitem.append(link);\nbyId(\"lines\").append(item);\nreturn link;\n});\nco\
nst strip = byId(\"strip\");\nconst grid = byId(\"grid\");\nconst isQuiet = (index) => [\"comment\", \"head\"].i\
ncludes(events[index].kind);\nconst rowsThere =\n[...Array(coreCount).keys()].filter((core) => coreCount <= 4 || \
[...bars, ...dangers].some((bar) => bar.core === core));\nif (bars.some(({core}) => core < 0)) rowsThere.push(-1\
);\nconst least = lines.length > 60 ? \"1.1rem\" : \"3.1rem\";\ngrid.style.gridTemplateColumns = `${rowsThere.in\
cludes(-1) ? 3.2 : 3.6}rem ` +\nlines.map((line, index) => (isQuiet(index) ? \".9rem\" : `minmax(${least}, 1fr)`\
)).join(\" \");\ngrid.style.gridTemplateRows = `1.2rem repeat(${rowsThere.length}, auto)`;\nif (rowsThere.length \
> 8) strip.classList.add(\"crowd\");\nconst columnOf = (index) => index + 2;\nfunction at(made, row, from, to) {\
\nif (row) made.style.gridRow = String(row);\nmade.style.gridColumn = `${columnOf(from)} / ${columnOf(to) + 1}`;\
\ngrid.append(made);\nreturn made;\n}\nconst past = at(element(\"div\", \"past\"), 0, 0, 0);\nrowsThere.forEach(\
(core, row) => {\nconst line = element(\"div\", \"row\");\nline.style.gridRow = String(row + 2);\ngrid.append(li\
ne);\nconst name = element(\"div\", \"name\", core < 0 ? \"slots\" : \"core \" + core);\nname.style.gridRow = St\
ring(row + 2);\ngrid.append(name);\n});\nconst numbers = lines.map(\n(line, index) =>\nat(isQuiet(index) ? eleme\
nt(\"div\", \"said\") : element(\"div\", \"no\", lines.length > 60 && (index + 1) % 5 ? \"\" : index + 1), 1,\ni\
ndex, index));\nnumbers.forEach((made, index) => {\nif (isQuiet(index)) made.title = lines[index];\n});\nconst r\
owOf = (core) => rowsThere.indexOf(core) + 2;\nfor (const danger of dangers) {\ndanger.made = at(element(\"div\"\
, \"danger\"), rowOf(danger.core), danger.from, danger.to);\n}\nfor (const bar of bars) {\nbar.made = at(element\
(\"div\", \"bar \" + bar.kind, bar.text), rowOf(bar.core), bar.from, bar.to);\nbar.made.title = lines[bar.from];\
\n}\nconst head = at(element(\"div\", \"head\"), 0, 0, 0);\nfunction lineAt(x) {\nlet best = 0;\nnumbers.forEach\
((made, index) => {\nif (made.getBoundingClientRect().left <= x + (isQuiet(index) ? 4 : 0)) best = index + 1;\n}\
);\nreturn best;\n}\nlet scrubs = false;\ngrid.addEventListener(\"pointerdown\", (event) => {\nif (event.button \
|| event.pointerType === \"touch\") return;  // a finger scrolls the strip, and goes where it taps\nscrubs = tru\
e;\ngrid.setPointerCapture(event.pointerId);\ngo(lineAt(event.clientX));\n});\ngrid.addEventListener(\"click\", \
(event) => {\nif (event.pointerType === \"touch\") go(lineAt(event.clientX));\n});\ngrid.addEventListener(\"poin\
termove\", (event) => {\nif (scrubs) {\nconst to = lineAt(event.clientX);\nif (to !== line) go(to);\n}\n});\nfor \
(const name of [\"pointerup\", \"pointercancel\"])\ngrid.addEventListener(name, () => {\nscrubs = false;\n});\nc\
onst hues = [212, 145, 32, 285, 178, 55, 330, 255];\nlet colours = 0;\nconst mappings = [];\nfor (const text of \
states) {\nconst known = mappings.length ? mappings[mappings.length - 1] : [];\nmappings.push([...text.matchAll(\
/^(0x[0-9a-f]+)-(0x[0-9a-f]+) /gm)].map((found) => {\nconst [start, end] = [Number(found[1]), Number(found[2])];\
\nconst old = known.find((other) => other.start < end && start < other.end);\nreturn {start, end, hue: old ? old\
.hue : hues[colours++ % hues.length]};\n}));\n}\nfunction hueOf(made, number, known) {\nconst mapping = known.fi\
nd((other) => other.start <= number && number < other.end);\nif (mapping) made.style.setProperty(\"--hue\", `hsl\
(${mapping.hue} 60% 45%)`);\n}\nconst isSame = (a, b) => a && b && JSON.stringify(a) === JSON.stringify(b);\nlet \
oldLines = new Set();\nfunction mark(made, line) {\nmade.dataset.line = line;\nif (!oldLines.has(line)) made.dat\
aset.fresh = \"\";\nreturn made;\n}\nconst markPair = (made, pair, line) => (pair.is ? mark(made, line || pair.i\
s.line) : made);\nfunction itemOf(words, kind, was) {\nconst made = element(\"span\", \"item\" + (kind ? \" \" + \
kind : \"\"), words);\nif (was) {\nmade.classList.add(\"changed\");\nmade.append(element(\"span\", \"was\", was)\
);\n}\nreturn made;\n}\nfunction paired(before, after, keyOf) {\nconst out = after.map((is) => ({is, was: before\
.find((other) => keyOf(other) === keyOf(is))}));\nfor (const was of before)\nif (!after.some((is) => keyOf(is) =\
== keyOf(was))) out.push({was});\nreturn out;\n}\nconst kindOf = ({is, was}) => (!is ? \"gone\" : !was ? \"new\" \
: isSame(is, was) ? \"\" : \"new\");\nfunction cardOf(core, before, after, acts, known) {\nconst [was, is] = [co\
reIn(before, core), coreIn(after, core)];\nconst card = element(\"section\", \"card\" + (acts ? \" acts\" : \"\"\
));\ncard.id = \"core\" + core;\ncard.setAttribute(\"aria-label\", \"core \" + core);\nconst title = element(\"h\
3\", \"\", \"core \" + core);\nif (is.flushed || was.flushed) {\nconst made = itemOf(\"flushed\", is.flushed ? (\
was.flushed ? \"\" : \"new\") : \"gone\");\ntitle.append(is.flushed ? mark(made, `core ${core} flushed`) : made)\
;\n}\ncard.append(title);\nconst start = card.childElementCount;\nconst add = (name, made) => made.length && car\
d.append(element(\"h4\", \"\", name), ...made);\nconst callWords = (call) => call && (call.name === \"call\" ? \
\"\" : call.name + \" \") + call.does;\nconst holdLine = (text) => `core ${core} holds ${text}`;\nif (is.call || \
was.call) {\nconst isNew = !isSame(is.call, was.call);\nconst old = is.call && was.call && isNew ? callWords(was\
.call) : \"\";\nconst made = itemOf(callWords(is.call) || callWords(was.call), is.call ? (isNew ? \"new\" : \"\"\
) : \"gone\", old);\nif (is.call) mark(made, is.call.line);\nmade.dataset.call = core;\nif (is.holds.length) {\n\
const holds = element(\"span\", \"holds\", \"holds\");\nfor (const text of is.holds) holds.append(\" \", mark(el\
ement(\"span\", \"\", text), holdLine(text)));\nmade.append(holds);\n}\nadd(\"call\", [made]);\n} else\nadd(\"ho\
lds\",\npaired(was.holds, is.holds, (text) => text.split(\"-\")[0])\n.map((pair) => markPair(itemOf(pair.is || p\
air.was, kindOf(pair)), pair, holdLine(pair.is))));\nadd(\"took\",\npaired(was.took, is.took, (frame) => frame)\
\n.map(\n(pair) =>\nmarkPair(itemOf(\"frame \" + (pair.is || pair.was), kindOf(pair)), pair, `core ${core} took \
frame ${pair.is}`)));\nadd(\"inbox\", paired(was.inbox, is.inbox, (message) => message.from + message.pages).map\
((pair) => {\nconst message = pair.is || pair.was;\nconst old = pair.is && pair.was && !isSame(pair.is, pair.was\
) ? `${pair.was.due} take due` : \"\";\nconst made = itemOf(`from core ${message.from}: drop ${message.pages}, $\
{message.due} take due`, kindOf(pair), old);\nhueOf(made, Number(message.pages.split(\"-\")[0]), known);\nif (pa\
ir.is) Object.assign(made.dataset, {from: message.from, due: message.due});\nreturn markPair(made, pair);\n}));\
\nconst keyOf = (entry) => `${entry.page} ${entry.frame} ${entry.rights}`;\nconst keys = [...new Set([...is.tlb, \
...is.table, ...was.tlb, ...was.table].map(keyOf))].sort(\n(a, b) => Number(a.split(\" \")[0]) - Number(b.split(\
\" \")[0]));\nif (keys.length) {\nconst table = element(\"table\", \"twins\");\nconst top = element(\"tr\");\nfo\
r (const name of [\"page\", \"TLB\", \"tables\"]) {\nconst cell = element(\"th\", \"\", name);\ncell.scope = \"c\
ol\";\ntop.append(cell);\n}\ntable.append(top);\nfor (const key of keys) {\nconst row = element(\"tr\");\nconst \
[page, frame, rights] = key.split(\" \");\nconst first = element(\"td\", \"page\", page);\nfirst.append(element(\
\"small\", \"\", `frame ${frame} ${rights}`));\nhueOf(first, Number(page), known);\nrow.dataset.frame = frame;\n\
row.append(first);\nfor (const kind of [\"tlb\", \"table\"]) {\nconst find = (all) => all[kind].find((entry) => \
keyOf(entry) === key);\nconst pair = {is: find(is), was: find(was)};\nif (!pair.is && !pair.was) {\nrow.append(e\
lement(\"td\", \"cell none\", \"\\u2013\"));\ncontinue;\n}\nconst going = pair.is && pair.is.going;\nconst cell \
= element(\"td\", \"cell \" + kindOf(pair), going ? \"stale\" : pair.is ? \"has it\" : \"had it\");\nif (going) \
{\ncell.className = \"cell going\" + (isSame(pair.is, pair.was) ? \"\" : \" changed\");\ncell.title =\ngoing === \
\"posted\" ? \"asked to drop it, no take yet\" : \"the tables have lost it; the TLB loses it at the second take\
\";\n}\nrow.append(markPair(cell, pair));\n}\ntable.append(row);\n}\ncard.append(table);\n}\nadd(\"to add to cou\
nts\", paired(was.count, is.count, ({frame}) => frame).map((pair) => {\nconst {frame, by} = pair.is || pair.was;\
\nreturn markPair(itemOf(`frame ${frame} ${by.replace(\"-\", \"\\u2212\")}`, kindOf(pair)), pair);\n}));\nadd(\"\
to review\", paired(was.queue, is.queue, ({frame, epoch}) => frame + \" \" + epoch).map((pair) => {\nconst queue\
d = pair.is || pair.was;\nconst due = after.epoch < queued.epoch + 2 ? `due in epoch ${queued.epoch + 2}` : \"du\
e\";\nreturn markPair(itemOf(`frame ${queued.frame}, ${due}`, kindOf(pair)), pair);\n}));\nif (card.childElement\
Count === start) {\ncard.classList.add(\"idle\");\ntitle.append(element(\"span\", \"tag\", \"no call, no transla\
tion\"));\n}\nreturn card;\n}\nfunction mappingsOf(before, after, known) {\nconst made = [element(\"h2\", \"\", \
\"Mappings and their pages\")];\nconst rest = new Set(paired([...before.pages.values()], [...after.pages.values(\
)], ({page}) => page));\nconst all = paired(before.mappings, after.mappings, ({line}) => line);\nconst pageOf = \
(pair) => {\nconst {page, frame, cores: own} = pair.is || pair.was;\nconst row = element(\"li\", kindOf(pair), \
\"\");\nrow.append(\nelement(\"span\", \"\", page), element(\"span\", \"\", frame ? \"frame \" + frame : \"no fr\
ame\"),\nelement(\"span\", \"\", own.length ? (own.length > 1 ? \"cores \" : \"core \") + rangesOf(own) : \"no c\
ore\"));\nif (frame) row.dataset.frame = frame;\nreturn markPair(row, pair);\n};\nfor (const pair of all) {\ncon\
st mapping = pair.is || pair.was;\nconst box = markPair(element(\"div\", \"mapping \" + kindOf(pair), mapping.li\
ne), pair);\nhueOf(box, mapping.start, known);\nconst own = [...rest].filter(\n(other) => Number((other.is || ot\
her.was).page) >= mapping.start && Number((other.is || other.was).page) < mapping.end &&\n(pair.is || !other.is)\
);\nif (own.length) {\nconst pages = element(\"ul\");\nfor (const page of own) {\nrest.delete(page);\npages.appe\
nd(pageOf(page));\n}\nbox.append(pages);\n}\nmade.push(box);\n}\nif (rest.size) {\nconst box = element(\"div\", \
\"mapping\", \"in no mapping\");\nconst pages = element(\"ul\");\nfor (const page of rest) pages.append(pageOf(p\
age));\nbox.append(pages);\nmade.push(box);\n}\nif (made.length === 1) made.push(element(\"p\", \"\", \"Nothing \
is mapped.\"));\nreturn made;\n}\nfunction framesOf(before, after, known) {\nconst made = [mark(element(\"h2\", \
\"\", `Frames in use \\u00b7 epoch ${after.epoch}`), `epoch ${after.epoch}`)];\nif (before.epoch !== after.epoch\
) made[0].append(\" \", element(\"span\", \"chip new\", `was ${before.epoch}`));\nconst grid = element(\"div\", \
\"frames\");\nconst refersTo = (state, frame) => {\nconst out = [];\nconst many = [...state.pages.values()].filt\
er((page) => page.frame === frame).length > 1;\nfor (const page of state.pages.values())\nif (page.frame === fra\
me) out.push({key: \"page \" + page.page, text: \"page \" + page.page});\nfor (const [core, own] of state.cores) \
{\nfor (const kind of [\"tlb\", \"table\"])\nfor (const entry of own[kind])\nif (entry.frame === frame)\nout.pus\
h({\nkey: `${kind} ${core} ${entry.page}`,\ntext: `core ${core} ${kind === \"tlb\" ? \"TLB\" : \"tables\"}${many \
? \" \" + entry.page : \"\"}`,\ngoing: Boolean(entry.going)\n});\nfor (const took of own.took)\nif (took === fra\
me) out.push({key: \"took \" + core, text: `core ${core}\\u2019s call`});\nfor (const queued of own.queue)\nif (\
queued.frame === frame)\nout.push({key: \"queue \" + core, text: `core ${core}\\u2019s queue, due in epoch ${que\
ued.epoch + 2}`});\n}\nreturn out;\n};\nconst sumOf = (state, frame) => {\nconst is = state.frames.get(frame);\n\
const kept = [...state.cores].flatMap(\n([core, own]) => own.count.filter((count) => count.frame === frame)\n.ma\
p((count) => `${count.by.startsWith(\"-\") ? \"\\u2212\" : \"+\"} ${count.by.slice(1)} of core ${core}`));\nretu\
rn is && (kept.length ? `${is.count} = ${is.global} global ${kept.join(\" \")}` : is.count) + (is.dirty ? \", di\
rty\" : \"\");\n};\nfor (const pair of paired([...before.frames.values()], [...after.frames.values()], ({frame}) \
=> frame)) {\nconst {frame} = pair.is || pair.was;\nconst box = element(\"section\", \"frame\" + (pair.is ? (pai\
r.was ? \"\" : \" new\") : \" gone\"));\nbox.dataset.frame = frame;\nbox.setAttribute(\"aria-label\", \"frame \" \
+ frame);\nbox.append(element(\"h3\", \"\", `frame ${frame}${pair.is ? \"\" : \": free again\"}`));\nmarkPair(bo\
x, pair);\nconst [sum, old] = [sumOf(after, frame), sumOf(before, frame)];\nif (sum) {\nconst line = element(\"p\
\", \"sum\" + (old && old !== sum ? \" new\" : \"\"), \"count \" + sum);\nif (old && old !== sum) line.title = \
\"was \" + old;\nbox.append(line);\n}\nconst all = paired(refersTo(before, frame), refersTo(after, frame), ({key\
}) => key);\nconst chips = element(\"ul\");\nfor (const chip of all) {\nconst thing = chip.is || chip.was;\ncons\
t one = element(\n\"li\",\n\"chip\" +\n(chip.is && thing.going ? \" going\" :\nchip.is            ? (chip.was ? \
\"\" : \" new\") :\n\" gone\"),\nthing.text + (chip.is && thing.going ? \": stale\" : \"\"));\nchips.append(one)\
;\n}\nif (all.length)\nbox.append(chips);\nelse\nbox.append(element(\"p\", \"\", \"nothing refers to it\"));\nco\
nst page = all.map(({is, was}) => /^page (0x\\S+)/.exec((is || was).key)).find(Boolean);\nif (page) hueOf(box, N\
umber(page[1]), known);\ngrid.append(box);\n}\nmade.push(grid.childElementCount ? grid : element(\"p\", \"\", \"\
No frame is in use.\"));\nreturn made;\n}\nfunction rangesOf(numbers) {\nconst runs = [];\nfor (const number of \
numbers) {\nconst last = runs[runs.length - 1];\nif (last && last[1] === number - 1)\nlast[1] = number;\nelse\nr\
uns.push([number, number]);\n}\nreturn runs.map(([from, to]) => (from === to ? String(from) : `${from}\\u2013${t\
o}`)).join(\", \");\n}\nfunction draw(oldText, text, known, actor) {\nconst [before, after] = [stateOf(oldText), \
stateOf(text)];\noldLines = new Set(partsOf(oldText));\nconst cards = element(\"div\", \"cores\");\nconst idle = \
[];\nfor (let core = 0; core < coreCount; core += 1) {\nconst card = cardOf(core, before, after, core === actor, \
known);\nif (coreCount > 8 && core !== actor && card.classList.contains(\"idle\"))\nidle.push(core);\nelse\ncard\
s.append(card);\n}\nbyId(\"cores\").replaceChildren(cards);\nif (idle.length)\nbyId(\"cores\").append(\nelement(\
\"p\", \"rest\", `No call and no translation: ${idle.length > 1 ? \"cores\" : \"core\"} ${rangesOf(idle)}.`));\n\
byId(\"below\").replaceChildren(...framesOf(before, after, known), ...mappingsOf(before, after, known));\nbyId(\
\"text\").textContent = text;\n}\nfor (const [name, lit] of [[\"pointerover\", true], [\"pointerout\", false]])\
\ndocument.querySelector(\"main\").addEventListener(name, (event) => {\nconst thing = event.target.closest(\"[da\
ta-frame]\");\nfor (const other of document.querySelectorAll(\"main [data-frame]\"))\nother.classList.toggle(\"l\
it\", lit && Boolean(thing) && other.dataset.frame === thing.dataset.frame);\n});\nfunction drawArrows() {\ncons\
t group = document.querySelector(\"#arrows g\");\ngroup.replaceChildren();\nconst section = byId(\"state\");\nco\
nst home = section.getBoundingClientRect();\nconst [left, top] = [section.scrollLeft - home.left, section.scroll\
Top - home.top];\nconst box = (made) => {\nconst rect = made.getBoundingClientRect();\nreturn {\nleft: rect.left \
+ left,\nright: rect.right + left,\ntop: rect.top + top,\nbottom: rect.bottom + top,\nmiddle: rect.top + rect.he\
ight / 2 + top\n};\n};\n[...document.querySelectorAll(\"#cores .item[data-from]\")].forEach((item, count) => {\n\
const sender = document.querySelector(`#cores .item[data-call=\"${item.dataset.from}\"]:not(.gone)`);\nif (!send\
er) return;\nconst [one, two, from, to] = [box(sender.closest(\".card\")), box(item.closest(\".card\")), box(sen\
der), box(item)];\nconst shift = (count % 4) * 4;\nlet d;\nif (one.right < two.left) {\nconst x = two.left - 8 - \
shift;\nconst near = two.left - one.right < 60 && Math.abs(one.top - two.top) < 5;\nd = near ? `M${from.right} $\
{from.middle}H${x}V${to.middle}H${to.left - 1}` :\n`M${from.right} ${from.middle}H${one.right + 8 + shift}V${Mat\
h.max(4, two.top - 5 - shift)}H${x}V${to.middle}H${\nto.left - 1}`;\n} else if (two.right < one.left) {\nconst x \
= two.right + 8 + shift;\nconst near = one.left - two.right < 60 && Math.abs(one.top - two.top) < 5;\nd = near ? \
`M${from.left} ${from.middle}H${x}V${to.middle}H${to.right + 1}` :\n`M${from.left} ${from.middle}H${one.left - 8 \
- shift}V${Math.max(4, two.top - 5 - shift)}H${x}V${to.middle}H${\nto.right + 1}`;\n} else {\nconst x = Math.max\
(3, one.left - 6 - shift);\nd = `M${from.left} ${from.middle}H${x}V${to.middle}H${to.left - 1}`;\n}\nconst path \
= document.createElementNS(\"http://www.w3.org/2000/svg\", \"path\");\npath.setAttribute(\"class\", item.dataset\
.due === \"first\" ? \"message\" : \"message half\");\npath.setAttribute(\"d\", d);\npath.setAttribute(\"marker-\
end\", \"url(#tip)\");\ngroup.append(path);\n});\n}\nlet line = 0;\nlet step = 0;\nlet naming;  // the link foll\
ows once nobody steps on\nfunction show() {\nconst group = line ? groups[line - 1] : [];\nconst fine = byId(\"fi\
ne\").checked;\nconst within = fine && step < group.length;\nconst text = within ? stateAt(line, step) : states[\
line];\nconst before = !line ? text : fine && step > 0 ? stateAt(line, step - 1) : states[line - 1];\nconst even\
t = line ? events[line - 1] : {};\ndraw(before, text, mappings[line].concat(line ? mappings[line - 1] : []), eve\
nt.core);\nconst told = !line ? {\ndoes: \"Before the first line: nothing is mapped, and all frames are free.\",\
\nalso: \"Step on by the right arrow, or click on the strip above.\"\n} :\nfine && group.length && step > 0 ? te\
llStep(line - 1, step) :\ntellLine(line - 1);\nconst author = line ? authorOf(line - 1) : \"\";\nput(byId(\"does\
\"), told.does || author);\nput(byId(\"also\"), told.also);\nput(byId(\"author\"), told.does && author ? \"\\u20\
1c\" + author + \"\\u201d\" : \"\");\nlinks.forEach((link, index) => {\nif (index === line - 1)\nlink.setAttribu\
te(\"aria-current\", \"step\");\nelse\nlink.removeAttribute(\"aria-current\");\nconst reply = link.querySelector\
(\".reply\");\nif (reply) reply.classList.toggle(\"later\", index >= line || (index === line - 1 && within));\nf\
or (const entry of link.querySelectorAll(\".log\"))\nentry.classList.toggle(\"later\", index >= line || (index =\
== line - 1 && within));\n});\nfor (const bar of bars) {\nbar.made.classList.toggle(\"later\", bar.from >= line)\
;\nconst reply = bar.answered && bar.to < line - (within ? 1 : 0) ? replies[bar.to].split(\" \")[0] : \"done\";\
\nbar.made.textContent = bar.text + (reply === \"done\" || reply.startsWith(\"0x\") ? \"\" : \" \" + reply);\n}\
\nfor (const danger of dangers) {\ndanger.made.classList.toggle(\"later\", danger.from >= line);\ndanger.made.st\
yle.gridColumn =\n`${columnOf(danger.from)} / ${columnOf(Math.max(danger.from, Math.min(danger.to, line - 1))) + \
1}`;\n}\nnumbers.forEach((made, index) => made.classList.toggle(\"at\", index === line - 1));\nhead.hidden = pas\
t.hidden = !line;\nif (line) {\nhead.style.gridColumn = String(columnOf(line - 1));\npast.style.gridColumn = `2 \
/ ${columnOf(line - 1) + 1}`;\nconst [column, place] = [numbers[line - 1].getBoundingClientRect(), strip.getBoun\
dingClientRect()];\nif (column.left < place.left + 70) strip.scrollLeft -= place.left + 90 - column.left;\nif (c\
olumn.right > place.right - 20) strip.scrollLeft += column.right - place.right + 60;\nconst [own, all] = [links[\
line - 1].getBoundingClientRect(), byId(\"trace\").getBoundingClientRect()];\nif (own.top < all.top) byId(\"trac\
e\").scrollTop -= all.top - own.top + 30;\nif (own.bottom > all.bottom) byId(\"trace\").scrollTop += own.bottom \
- all.bottom + 30;\n} else\nstrip.scrollLeft = 0;\nconst steps = fine && group.length > 1 ? `, step ${step} of $\
{group.length}` : \"\";\nbyId(\"where\").textContent = line ? `Line ${line} of ${lines.length}${steps}` : `Befor\
e line 1 of ${lines.length}`;\nstrip.setAttribute(\"aria-valuenow\", line);\nstrip.setAttribute(\n\"aria-valuete\
xt\",\nbyId(\"where\").textContent + (line ? \": \" + lines[line - 1] + (replies[line - 1] ? \", \" + replies[li\
ne - 1] : \"\") : \"\"));\nbyId(\"first\").disabled = byId(\"back\").disabled = line === 0;\nbyId(\"next\").disa\
bled = byId(\"last\").disabled = line === lines.length && !within;\nfor (const part of [\"state\", \"memory\"]) \
{  // what is new is scrolled into view, and the page itself isn't\nconst [all, own] = [byId(part), byId(part).q\
uerySelector(\".new, .gone, .changed\")];\nif (!own || all.scrollHeight <= all.clientHeight + 1) continue;\ncons\
t [a, b] = [all.getBoundingClientRect(), own.getBoundingClientRect()];\nif (b.top < a.top || b.bottom > a.bottom\
) all.scrollTop += b.top - a.top - 40;\n}\nclearTimeout(naming);\nnaming = setTimeout(() => history.replaceState\
(null, \"\", \"#\" + line + (within ? \".\" + step : \"\")), 200);\ndrawArrows();\n}\nfunction go(toLine, toStep\
) {\nline = Math.max(0, Math.min(lines.length, toLine));\nconst most = line ? groups[line - 1].length : 0;\nstep \
= Math.max(0, Math.min(most, toStep === undefined ? most : toStep));\nshow();\n}\nfunction forward() {\nconst fi\
ne = byId(\"fine\").checked;\nif (fine && line && step < groups[line - 1].length) return go(line, step + 1);\nle\
t to = line + 1;\nwhile (to < lines.length && isQuiet(to - 1)) to += 1;\nreturn go(to, fine ? Math.min(1, to <= \
lines.length ? groups[to - 1].length : 0) : undefined);\n}\nfunction backward() {\nif (byId(\"fine\").checked && \
step > 1) return go(line, step - 1);\nlet to = line - 1;\nwhile (to > 0 && isQuiet(to - 1)) to -= 1;\nreturn go(\
to);\n}\nfunction follow(event) {\nconst hash = (event ? new URL(event.newURL).hash : location.hash).slice(1);\n\
if (!/^\\d+(\\.\\d+)?$/.test(hash)) return event ? undefined : go(0);\nconst [toLine, toStep] = hash.split(\".\"\
).map(Number);\nif (Number.isInteger(toStep)) byId(\"fine\").checked = true;\nreturn go(toLine, toStep);\n}\ncon\
st ends = {\nHome: () => go(0),\nEnd: () => go(lines.length)\n};\nconst keys = {\nArrowRight: forward,\nj: forwa\
rd,\nArrowLeft: backward,\nk: backward,\n...ends\n};\ndocument.addEventListener(\"keydown\", (event) => {\nif (e\
vent.ctrlKey || event.altKey || event.metaKey || event.target.matches(\"input:not([type=checkbox]), textarea\")) \
return;\nconst onStrip = event.target === strip;\nconst does = keys[event.key] ||\n(onStrip && {ArrowUp: forward\
, ArrowDown: backward, PageUp: () => go(line + 5), PageDown: () => go(line - 5)}[event.key]) ||\n(event.key === \
\" \" && !event.target.closest(\"button, input, a, summary\") && forward);\nif (event.key === \"s\") {\nbyId(\"f\
ine\").checked = !byId(\"fine\").checked;\ngo(line);\n} else if (does) {\nevent.preventDefault();\ndoes();\n}\n}\
);\nstrip.setAttribute(\"aria-valuemax\", lines.length);\nbyId(\"first\").onclick = ends.Home;\nbyId(\"back\").o\
nclick = backward;\nbyId(\"next\").onclick = forward;\nbyId(\"last\").onclick = ends.End;\nbyId(\"fine\").onchan\
ge = () => go(line);\nwindow.addEventListener(\"hashchange\", follow);\nwindow.addEventListener(\"resize\", draw\
Arrows);\nbyId(\"state\").addEventListener(\"scroll\", drawArrows);\nfunction makeHandout() {\nconst all = eleme\
nt(\"ol\");\nlines.forEach((text, index) => {\nif (isQuiet(index)) return;\nconst [item, words] = [element(\"li\
\"), element(\"div\")];\nconst {does, also} = tellLine(index);\nput(words, [does, also].filter(Boolean).join(\" \
\"));\nitem.append(element(\"code\", \"\", `${index + 1}  ${text}${replies[index] ? \" = \" + replies[index] : \
\"\"}`), words);\nall.append(item);\n});\nbyId(\"handout\").replaceChildren(element(\"h2\", \"\", \"All lines\")\
, all);\n}\nwindow.addEventListener(\"beforeprint\", makeHandout);\nconst first = authorOf(lines.findIndex((text\
) => text.startsWith(\"#\")));\nconst name = /^([^.]*)\\./.exec(lines[0].startsWith(\"#\") ? lines[0].replace(/^\
#\\s*/, \"\") : \"\");\nif (name && name[1].length < 60) {\nbyId(\"title\").textContent = name[1];\ndocument.tit\
le = name[1] + \" \\u00b7 RadixVM\";\n}\nfollow();\n</script>\n</body>\n</html>\n";
