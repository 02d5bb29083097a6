// The frame of a page: its style and its script. Made by page/make from page.html, page.css and page.js.

// Up to the ladder.
pub const HEAD: &[u8] = b"<!DOCTYPE html>\n\
<html lang=\"en\">\n\
<head>\n\
<meta charset=\"utf-8\">\n\
<meta name=\"viewport\" content=\"width=device-width,initial-scale=1\">\n\
<meta http-equiv=\"Content-Security-Policy\" content=\"default-src 'none';style-src 'unsafe-inline';script-src 'unsafe-inline';img-src data:\">\n\
<link rel=\"icon\" href=\"data:,\">\n\
<title>Call ladder</title>\n\
<style>\n\
:root{color-scheme:light dark;--ground:#fff;--ink:#1c2128;--dim:#57606a;--line:#c3c9d1;--soft:#f3f5f8;--asked:#0a53c4;--closes:#b3261e;--heard:#0f6b34;--mark:#fff3c9}\n\
*{box-sizing:border-box}\n\
body{margin:0;height:100vh;height:100dvh;display:grid;grid-template:auto minmax(0,1fr)/minmax(0,1fr) clamp(360px,36vw,520px);background:var(--ground);color:var(--ink);font:14px/1.4 system-ui,sans-serif}\n\
header{grid-column:1/3;display:flex;gap:10px;align-items:center;padding:8px 12px;border-bottom:1px solid var(--line);background:var(--soft)}\n\
header button{font:inherit;color:inherit;background:var(--ground);border:1px solid var(--line);border-radius:5px;padding:4px 10px;min-width:40px;cursor:pointer}\n\
input{flex:1;min-width:80px;accent-color:var(--asked)}\n\
#words{flex:0 0 46%;font:13px ui-monospace,\"DejaVu Sans Mono\",Menlo,Consolas,monospace;overflow:hidden;text-overflow:ellipsis;white-space:nowrap}\n\
#ladder{contain:strict;overflow:auto;position:relative;scroll-padding:45% 0}\n\
#ladder svg{display:block;grid-area:1/1}\n\
#ladder .heads{position:sticky;top:0;z-index:2;width:max-content;border-bottom:1px solid var(--line)}\n\
#ladder .block{display:grid;content-visibility:auto;contain:strict}\n\
#ladder .numbers{position:sticky;left:0;overflow:visible;pointer-events:none;background:none}\n\
.hd{cursor:pointer}\n\
.ground{fill:transparent}\n\
.numbers .ground{fill:var(--ground)}\n\
#ladder g:hover>.ground{fill:var(--soft)}\n\
#ladder .now>.ground,#ladder .now>.u{fill:var(--mark)}\n\
#ladder .now .o{stroke:var(--mark)}\n\
#network{contain:strict;overflow:auto;display:flex;flex-direction:column;justify-content:space-between;border-left:1px solid var(--line);background:var(--soft)}\n\
.map{position:relative;flex:none;min-width:330px}\n\
.map svg{position:absolute;left:0;top:0;background:none;pointer-events:none;z-index:1}\n\
.map path{fill:none;stroke:var(--dim);stroke-width:1.5}\n\
.map circle{fill:var(--ground);stroke:var(--dim);stroke-width:1.5}\n\
.map .asked{stroke:var(--asked)}\n\
.map .closes{stroke:var(--closes)}\n\
.map .flows{stroke:var(--heard)}\n\
.map .silent{stroke:var(--dim);stroke-width:4}\n\
.map .heard{stroke:var(--heard);stroke-width:4}\n\
.map circle.silent,.map circle.heard{stroke-width:3}\n\
.legend{position:absolute;top:0;left:var(--left);right:19px;margin:0;padding-left:15px;display:flex;gap:8px;font:11px/24px ui-monospace,\"DejaVu Sans Mono\",Menlo,Consolas,monospace;color:var(--dim)}\n\
.legend .coming{margin-left:auto}\n\
.box{content-visibility:auto;position:absolute;left:calc(var(--left) - 10px);right:10px;padding-bottom:4px;background:var(--ground);border:1px solid var(--line);border-radius:4px}\n\
.box.feature{border-radius:13px}\n\
.box button{border:0;background:none;color:inherit;font:bold 13px/24px ui-monospace,\"DejaVu Sans Mono\",Menlo,Consolas,monospace;padding:2px 8px 0 24px;text-align:left;width:100%;height:28px;cursor:pointer}\n\
.box button span{font-weight:400;font-size:12px;margin-left:10px}\n\
.box p{contain:layout paint;margin:0;height:24px;padding:0 8px 0 24px;display:flex;gap:8px;font:12px/24px ui-monospace,\"DejaVu Sans Mono\",Menlo,Consolas,monospace;white-space:nowrap;overflow:hidden}\n\
.box b{font-weight:600}\n\
.box .hears{font-weight:600}\n\
.box .coming{margin-left:auto;overflow:hidden;text-overflow:ellipsis;flex:0 1 auto}\n\
.box.acts{border-color:var(--ink)}\n\
.box .on{background:var(--mark)}\n\
.box.chosen button{color:var(--asked);text-decoration:underline}\n\
.keys{position:sticky;bottom:0;z-index:2;margin:0;padding:8px 12px;color:var(--dim);background:var(--soft);font-size:12px;border-top:1px solid var(--line)}\n\
kbd{font:inherit;border:1px solid var(--line);border-radius:3px;padding:0 4px}\n\
:focus-visible{outline:3px solid var(--asked);outline-offset:1px}\n\
@media (max-width:800px){\n\
.keys{display:none}\n\
body{grid-template:minmax(0,min(38%,var(--map,38%))) minmax(0,1fr) auto/minmax(0,1fr)}\n\
#network{grid-row:1;border-left:0;border-bottom:1px solid var(--line)}\n\
#ladder{grid-row:2}\n\
header{grid-row:3;grid-column:1;flex-wrap:wrap;border-top:1px solid var(--line);border-bottom:0;gap:6px}\n\
header button{min-width:44px;min-height:40px}\n\
#words{flex:1 0 100%;white-space:normal;font-size:12px;min-height:4.2em;max-height:4.2em}\n\
.box p{font-size:11px;gap:6px}\n\
}\n\
@media (pointer:coarse){\n\
.keys{display:none}\n\
}\n\
@media (prefers-color-scheme:dark){\n\
:root{--ground:#0f1318;--ink:#e3e8ee;--dim:#a0a9b5;--line:#3a434e;--soft:#191f27;--asked:#7db1ff;--closes:#ff938a;--heard:#5fd08a;--mark:#3b3410}\n\
}\n\
</style>\n\
<style id=\"only\"></style>\n\
</head>\n\
<body>\n\
<header>\n\
<button id=\"settle-back\" aria-label=\"previous settle\" title=\"previous settle: [ or Page Up\">\xc2\xab</button>\n\
<button id=\"back\" aria-label=\"previous turn\" title=\"previous turn: left or up\">\xe2\x80\xb9</button>\n\
<input id=\"slider\" type=\"range\" min=\"0\" value=\"0\" aria-label=\"turn\">\n\
<button id=\"on\" aria-label=\"next turn\" title=\"next turn: right or down\">\xe2\x80\xba</button>\n\
<button id=\"settle-on\" aria-label=\"next settle\" title=\"next settle: ] or Page Down\">\xc2\xbb</button>\n\
<output id=\"words\" aria-live=\"polite\"></output>\n\
</header>\n\
<main id=\"ladder\" tabindex=\"0\" aria-label=\"ladder\">\n";

// From there to the data.
pub const MIDDLE: &[u8] = b"</main>\n\
<aside id=\"network\" tabindex=\"0\" aria-label=\"network\">\n\
<p class=\"keys\"><kbd>\xe2\x86\x90</kbd> <kbd>\xe2\x86\x92</kbd> turn &nbsp; <kbd>[</kbd> <kbd>]</kbd> settle &nbsp; <kbd>Home</kbd> <kbd>End</kbd> &nbsp; a box: only its arrows <kbd>Esc</kbd></p>\n\
</aside>\n\
<script type=\"application/json\" id=\"data\">\n";

// From there on: the script.
pub const TAIL: &[u8] = b"</script>\n\
<script>\n\
\"use strict\";\n\
const by_id = (id) => document.getElementById(id);\n\
const make = (tag, classes, text) => {\n\
const made = document.createElement(tag);\n\
if (classes) made.className = classes;\n\
if (text !== undefined) made.textContent = text;\n\
return made;\n\
};\n\
const drawn = (tag, attributes) => {\n\
const made = document.createElementNS(\"http://www.w3.org/2000/svg\", tag);\n\
for (const name in attributes) made.setAttribute(name, attributes[name]);\n\
return made;\n\
};\n\
const data = JSON.parse(by_id(\"data\").textContent);\n\
const slot_count = data.slots.length;\n\
const ids = data.rows.map((row) => row[0]);\n\
const far = (slot) => slot ^ 1;\n\
const cells = [];\n\
const before = data.rows.map((row) => {\n\
const old = [];\n\
for (let i = 1; i < row.length; i += 2) {\n\
old.push(row[i], cells[row[i]]);\n\
cells[row[i]] = row[i + 1];\n\
}\n\
return old;\n\
});\n\
let looked_at = ids.length - 1;\n\
function walk_to(k) {\n\
const changed = new Set();\n\
const change = (list, from) => {\n\
for (let i = from; i < list.length; i += 2) {\n\
cells[list[i]] = list[i + 1];\n\
changed.add(list[i]);\n\
}\n\
};\n\
while (looked_at < k) change(data.rows[++looked_at], 1);\n\
while (looked_at > k) change(before[looked_at--], 0);\n\
return changed;\n\
}\n\
const slot_cell = (slot) => cells[3 * slot];\n\
const media_cell = (slot) => cells[3 * slot + 1];\n\
const path_cell = (slot) => cells[3 * slot + 2];\n\
const box_cell = (who) => cells[3 * slot_count + who];\n\
const place = (slot) => names.get(data.slots[slot][0]) + \"/\" + data.slots[slot][1];\n\
const names = new Map(data.boxes.map(([who, name]) => [who, name]));\n\
const slot_at = new Map(data.slots.map((_, slot) => [place(slot), slot]));\n\
function partner(slot) {\n\
const [word, other] = slot_cell(slot)[2].split(\" \");\n\
return word === \"link\" ? slot_at.get(names.get(data.slots[slot][0]) + \"/\" + other) : undefined;\n\
}\n\
const BLOCK = 32;\n\
const ladder = by_id(\"ladder\");\n\
const picture = ladder.querySelector(\"svg\");\n\
const width = +picture.getAttribute(\"width\");\n\
const height_of = (row) => +/,(\\d+)\\)/.exec(row.getAttribute(\"transform\"))[1];\n\
const rows = new Map();\n\
function part_of(top, bottom, lines) {\n\
const part = drawn(\"svg\", { width, height: bottom - top, viewBox: \"0 0 \" + width + \" \" + (bottom - top) });\n\
part.append(drawn(\"path\", { class: \"v\", d: lines.replace(/M(\\d+) \\d+V\\d+/g, \"M$1 0V\" + (bottom - top)) }));\n\
return part;\n\
}\n\
function lay_out() {\n\
const all = [...picture.querySelectorAll(\":scope > g[id]\")];\n\
const lines = picture.querySelector(\":scope > path.v\").getAttribute(\"d\");\n\
const bottom = +picture.getAttribute(\"height\") - 8;\n\
const heads = drawn(\"svg\", { width, height: 44, viewBox: \"0 0 \" + width + \" 44\" });\n\
heads.append(...picture.querySelectorAll(\":scope > .hd, :scope > text\"));\n\
const top = make(\"div\", \"heads\");\n\
top.append(heads);\n\
const made = [top];\n\
for (let i = 0; i < all.length; i += BLOCK) {\n\
const block = all.slice(i, i + BLOCK);\n\
const y = height_of(block[0]);\n\
const end = i + BLOCK < all.length ? height_of(all[i + BLOCK]) : bottom;\n\
const part = part_of(y, end, lines);\n\
const numbers = drawn(\"svg\", { class: \"numbers\", width: 60, height: end - y });\n\
block.forEach((row, j) => {\n\
const from = height_of(row);\n\
const next = j + 1 < block.length ? height_of(block[j + 1]) : end;\n\
const number = row.nextElementSibling;\n\
rows.set(row.id, { row, number, title: row.querySelector(\"title\").textContent, columns: columns_in(row), top: from, bottom: next });\n\
for (const it of [row, number]) it.setAttribute(\"transform\", \"translate(0,\" + (from - y) + \")\");\n\
row.prepend(drawn(\"rect\", { class: \"ground\", width, height: next - from }));\n\
number.prepend(...number_ground(row.classList.contains(\"se\"), next - from));\n\
part.append(row);\n\
numbers.append(number);\n\
});\n\
const holder = make(\"div\", \"block\");\n\
holder.style.cssText = \"width:\" + width + \"px;height:\" + (end - y) + \"px;contain-intrinsic-size:\" + width + \"px \" + (end - y) + \"px\";\n\
holder.append(part, numbers);\n\
made.push(holder);\n\
}\n\
document.head.append(picture.querySelector(\"style\"));\n\
picture.replaceWith(...made);\n\
}\n\
function number_ground(is_settle, height) {\n\
const ground = [drawn(\"rect\", { class: \"ground\", width: 60, height })];\n\
if (is_settle) {\n\
ground.push(drawn(\"rect\", { class: \"u\", y: 6, width: 60, height: height - 14 }));\n\
ground.push(drawn(\"path\", { class: \"v\", d: \"M0 6H60M0 \" + (height - 8) + \"H60\" }));\n\
}\n\
return ground;\n\
}\n\
const columns_in = (row) => [...row.classList].filter((it) => /^b\\d+$/.test(it)).map((it) => +it.slice(1));\n\
let stops = [];\n\
function find_stops() {\n\
const drawn_rows = ids.map((_, k) => k).filter((k) => rows.has(ids[k]));\n\
stops = [drawn_rows.length ? drawn_rows[0] - 1 : 0, ...drawn_rows];\n\
}\n\
const LEGEND = 24;\n\
const HEAD = 28;\n\
const LINE = 24;\n\
const GAP = 10;\n\
const DEPTH = 10;\n\
const network = by_id(\"network\");\n\
const map = make(\"div\", \"map\");\n\
const boxes = [];\n\
const lines = [];\n\
const heights = [];\n\
const arcs = [];\n\
const dots = [];\n\
let links;\n\
function depths() {\n\
const taken = [];\n\
return arcs_ends().map(([from, to]) => {\n\
let depth = 0;\n\
while ((taken[depth] || []).some(([a, b]) => from < b && a < to)) depth++;\n\
(taken[depth] = taken[depth] || []).push([from, to]);\n\
return depth;\n\
});\n\
}\n\
const arcs_ends = () => {\n\
const ends = [];\n\
for (let slot = 0; slot < slot_count; slot += 2) ends.push([heights[slot], heights[slot + 1]].sort((a, b) => a - b));\n\
return ends;\n\
};\n\
function legend() {\n\
const line = make(\"p\", \"legend\");\n\
line.append(make(\"b\", \"\", \"slot\"), make(\"span\", \"fl\", \"state\"), make(\"span\", \"\", \"goal or link\"), make(\"span\", \"coming op\", \"\xe2\x97\x84 under way to it\"));\n\
return line;\n\
}\n\
function lay_out_network() {\n\
map.append(legend());\n\
const heads = [...document.querySelectorAll(\".hd\")].map((head) => [head.textContent, +head.dataset.c]);\n\
const column_of = new Map(heads);\n\
let y = LEGEND;\n\
data.boxes.forEach(([who, name, kind]) => {\n\
const column = column_of.has(name) ? column_of.get(name) : -2;\n\
const own = data.slots.map((_, slot) => slot).filter((slot) => data.slots[slot][0] === who);\n\
const box = make(\"section\", \"box \" + kind);\n\
const head = make(\"button\", \"\", name);\n\
const note = make(\"span\", \"pr\");\n\
head.dataset.c = column;\n\
head.setAttribute(\"aria-pressed\", \"false\");\n\
head.append(note);\n\
box.append(head);\n\
box.style.top = y + \"px\";\n\
own.forEach((slot, i) => {\n\
heights[slot] = y + HEAD + LINE * i + LINE / 2;\n\
lines[slot] = make(\"p\");\n\
lines[slot].id = \"slot-\" + slot;\n\
box.append(lines[slot]);\n\
});\n\
boxes.push({ box, note, who, column, top: y, bottom: y + HEAD + LINE * own.length });\n\
y += HEAD + LINE * own.length + 6 + GAP;\n\
map.append(box);\n\
});\n\
const deep = depths();\n\
const left = 14 + DEPTH * (1 + Math.max(0, ...deep));\n\
map.style.cssText = \"height:\" + y + \"px;--left:\" + (left + 10) + \"px\";\n\
document.body.style.setProperty(\"--map\", y + \"px\");\n\
const sketch = drawn(\"svg\", { width: left + 40, height: y });\n\
arcs_ends().forEach(([from, to], tunnel) => {\n\
const x = left - DEPTH * (1 + deep[tunnel]);\n\
arcs[tunnel] = drawn(\"path\", { d: \"M\" + left + \" \" + from + \"H\" + (x + 6) + \"q-6 0-6 6V\" + (to - 6) + \"q0 6 6 6H\" + left });\n\
sketch.append(arcs[tunnel]);\n\
});\n\
links = drawn(\"g\", { transform: \"translate(\" + left + \",0)\" });\n\
sketch.append(links);\n\
for (let slot = 0; slot < slot_count; slot++) {\n\
dots[slot] = drawn(\"circle\", { cx: left, cy: heights[slot], r: 4 });\n\
sketch.append(dots[slot]);\n\
}\n\
map.append(sketch);\n\
network.prepend(map);\n\
}\n\
const STATE_CLASS = { closed: \"d\", opening: \"op\", opened: \"op\", flowing: \"fl\", closing: \"cl\" };\n\
const trimmed = (words) => words.trim();\n\
function flows() {\n\
const look = [];\n\
const hears = [];\n\
for (let low = 0; low < slot_count; low++) {\n\
const [word, high, flow, at_low, at_high] = path_cell(low);\n\
if (word !== \"path\" || flow !== \"flowing\") continue;\n\
const heard = at_low !== \"none\" || at_high !== \"none\" ? \"heard\" : \"silent\";\n\
hears[low] = at_low;\n\
hears[high] = at_high;\n\
for (let slot = low, left = slot_count; left > 0; left--) {\n\
look[slot] = look[far(slot)] = heard;\n\
if (far(slot) === high) break;\n\
slot = partner(far(slot));\n\
if (slot === undefined) break;\n\
}\n\
}\n\
return { look, hears };\n\
}\n\
function slot_words(slot, hears) {\n\
const [, state, goal, ...coming] = slot_cell(slot);\n\
const [, receives, sends] = media_cell(slot);\n\
const line = [make(\"b\", \"\", data.slots[slot][1]), make(\"span\", \"state \" + STATE_CLASS[state], state), make(\"span\", \"d\", goal)];\n\
if (hears !== undefined) line.push(make(\"span\", hears === \"none\" ? \"hears d\" : \"hears fl\", \"hears \" + hears));\n\
if (kinds.get(data.slots[slot][0]) === \"device\") {\n\
if (trimmed(receives) === \"none\") line.push(make(\"span\", \"d\", \"receives none\"));\n\
if (trimmed(sends) === \"none\") line.push(make(\"span\", \"d\", \"sends none\"));\n\
}\n\
if (coming.length) line.push(make(\"span\", \"coming op\", \"\xe2\x97\x84 \" + coming.map((it) => trimmed(it).replace(/ (of|for) \\S+ \\d+$/, \"\")).join(\", \")));\n\
return line;\n\
}\n\
const kinds = new Map(data.boxes.map(([who, , kind]) => [who, kind]));\n\
function slot_title(slot) {\n\
const [, state, goal, ...coming] = slot_cell(slot);\n\
const [, receives, sends] = media_cell(slot);\n\
const media = \"receives \" + trimmed(receives) + \", sends \" + trimmed(sends);\n\
const words = [place(slot) + \" \" + state + \" \" + goal + \", \" + data.slots[slot][2], media];\n\
coming.forEach((it) => words.push(\"under way: \" + trimmed(it)));\n\
return words.join(\"\\n\");\n\
}\n\
const shown = [];\n\
function show_slots({ look, hears }) {\n\
for (let slot = 0; slot < slot_count; slot++) {\n\
const key = JSON.stringify([slot_cell(slot), media_cell(slot), hears[slot]]);\n\
if (shown[slot] === key) continue;\n\
shown[slot] = key;\n\
lines[slot].replaceChildren(...slot_words(slot, hears[slot]));\n\
lines[slot].title = slot_title(slot);\n\
}\n\
for (let slot = 0; slot < slot_count; slot++) set_class(dots[slot], look[slot] || \"\");\n\
arcs.forEach((arc, tunnel) => set_class(arc, look[2 * tunnel] || tunnel_class(2 * tunnel)));\n\
}\n\
const set_class = (element, classes) => {\n\
if ((element.getAttribute(\"class\") || \"\") !== classes) element.setAttribute(\"class\", classes);\n\
};\n\
function tunnel_class(slot) {\n\
const states = [slot_cell(slot)[1], slot_cell(far(slot))[1]];\n\
if (states.every((state) => state === \"flowing\")) return \"flows\";\n\
if (states.includes(\"closing\")) return \"closes\";\n\
return states.every((state) => state === \"closed\") ? \"\" : \"asked\";\n\
}\n\
let links_shown = \"\";\n\
function show_links({ look }) {\n\
const paths = [];\n\
for (let slot = 0; slot < slot_count; slot++) {\n\
const other = partner(slot);\n\
if (other === undefined || heights[other] < heights[slot]) continue;\n\
const deep = 4 + 2 * Math.min((heights[other] - heights[slot]) / LINE, 4);\n\
paths.push([look[slot] && look[slot] === look[other] ? look[slot] : \"\", \"M0 \" + heights[slot] + \"h\" + deep + \"V\" + heights[other] + \"h-\" + deep]);\n\
}\n\
const key = JSON.stringify(paths);\n\
if (key === links_shown) return;\n\
links_shown = key;\n\
links.replaceChildren(...paths.map(([look, d]) => drawn(\"path\", { class: look, d })));\n\
}\n\
function show_boxes() {\n\
for (const { note, who } of boxes) {\n\
const [, state, told] = box_cell(who);\n\
const words = state + (told ? \" \xc2\xb7 told \" + told : \"\");\n\
if (note.textContent !== words) note.textContent = words;\n\
}\n\
}\n\
let at = 0;\n\
let chosen = [];\n\
function show_row() {\n\
for (const it of chosen) it.classList.remove(\"now\", \"on\", \"acts\");\n\
const id = ids[stops[at]];\n\
const row = at ? rows.get(id) : undefined;\n\
chosen = [];\n\
const mark = (element, name) => {\n\
element.classList.add(name);\n\
chosen.push(element);\n\
};\n\
let words = \"before \" + (stops[0] ? ids[stops[1]].replace(\"-\", \" \") : \"the first turn\");\n\
if (row) {\n\
mark(row.row, \"now\");\n\
mark(row.number, \"now\");\n\
words = (is_turn(at) ? id.slice(5) + \"  \" : \"\") + row.title;\n\
if (is_turn(at)) boxes_of(row).forEach(({ box }) => mark(box, \"acts\"));\n\
const changed = data.rows[stops[at]].filter((_, i) => i % 2 === 1).filter((it) => it < 3 * slot_count && it % 3 < 2);\n\
for (const slot of new Set(changed.map((it) => Math.floor(it / 3)))) mark(lines[slot], \"on\");\n\
bring_into_view(row);\n\
} else {\n\
ladder.scrollTop = 0;\n\
network.scrollTop = 0;\n\
}\n\
by_id(\"words\").textContent = words;\n\
by_id(\"slider\").value = at;\n\
by_id(\"slider\").setAttribute(\"aria-valuetext\", words);\n\
}\n\
const is_turn = (stop) => ids[stops[stop]].startsWith(\"turn\");\n\
const boxes_of = (row) => boxes.filter((it) => row.columns.includes(it.column));\n\
function bring_into_view(shown) {\n\
const { row, columns, top, bottom } = shown;\n\
const height = ladder.clientHeight;\n\
if (top - 44 < ladder.scrollTop || bottom + 20 > ladder.scrollTop + height) ladder.scrollTop = top - height / 2;\n\
if (!columns.length || row.classList.contains(\"se\")) return;\n\
const left = Math.min(...columns) * 136 + 176 - 110;\n\
const right = Math.max(...columns) * 136 + 176 + 110;\n\
if (right - left > ladder.clientWidth - 60) ladder.scrollLeft = left - 60;\n\
else if (left < ladder.scrollLeft + 60) ladder.scrollLeft = left - 60;\n\
else if (right > ladder.scrollLeft + ladder.clientWidth) ladder.scrollLeft = right - ladder.clientWidth;\n\
const of = boxes_of(shown);\n\
const first = Math.min(...of.map((it) => it.top));\n\
const last_line = Math.max(...of.map((it) => it.bottom));\n\
if (first < network.scrollTop || last_line > network.scrollTop + network.clientHeight - 40) network.scrollTop = first - LEGEND;\n\
}\n\
let waits = 0;\n\
function tell_address() {\n\
clearTimeout(waits);\n\
waits = setTimeout(() => history.replaceState(null, \"\", at ? \"#\" + ids[stops[at]] : location.pathname + location.search), 150);\n\
}\n\
function go(stop, told = true) {\n\
at = Math.max(0, Math.min(stops.length - 1, stop));\n\
walk_to(stops[at]);\n\
const now = flows();\n\
show_slots(now);\n\
show_links(now);\n\
show_boxes();\n\
show_row();\n\
if (told) tell_address();\n\
}\n\
let only = -1;\n\
const takes_part = (stop) => only < 0 || stop <= 0 || !is_turn(stop) || rows.get(ids[stops[stop]]).columns.includes(only);\n\
function choose(column) {\n\
only = only === column ? -1 : column;\n\
const other = \":not(.b\" + only + \")\";\n\
by_id(\"only\").textContent = only < 0 ? \"\" : \"#ladder g[id]\" + other + \":not(.se)>:not(.ground),#ladder .se>g\" + other + \"{opacity:.13}\";\n\
for (const head of document.querySelectorAll(\"[data-c]\")) head.setAttribute(\"aria-pressed\", String(+head.dataset.c === only));\n\
boxes.forEach(({ box, column }) => box.classList.toggle(\"chosen\", column === only));\n\
}\n\
function step(by) {\n\
let stop = at + by;\n\
while (stop > 0 && stop < stops.length && !takes_part(stop)) stop += by;\n\
if (stop >= 0 && stop < stops.length) go(stop);\n\
}\n\
function settle(by) {\n\
let stop = at + by;\n\
while (stop > 0 && stop < stops.length - 1 && is_turn(stop)) stop += by;\n\
go(stop);\n\
}\n\
function keys(event) {\n\
if (event.ctrlKey || event.altKey || event.metaKey) return;\n\
const head = event.target.closest(\".hd\");\n\
if (head && (event.key === \"Enter\" || event.key === \" \")) {\n\
choose(+head.dataset.c);\n\
return event.preventDefault();\n\
}\n\
const far_on = event.shiftKey ? settle : step;\n\
const done = {\n\
ArrowRight: () => far_on(1),\n\
ArrowDown: () => far_on(1),\n\
ArrowLeft: () => far_on(-1),\n\
ArrowUp: () => far_on(-1),\n\
PageDown: () => settle(1),\n\
PageUp: () => settle(-1),\n\
\"]\": () => settle(1),\n\
\"[\": () => settle(-1),\n\
Home: () => go(0),\n\
End: () => go(stops.length - 1),\n\
Escape: () => only >= 0 && choose(only),\n\
}[event.key];\n\
if (!done) return;\n\
done();\n\
event.preventDefault();\n\
}\n\
function clicked(event) {\n\
const head = event.target.closest(\"[data-c]\");\n\
if (head) return choose(+head.dataset.c);\n\
const row = event.target.closest(\"#ladder g[id]\");\n\
if (row && rows.has(row.id)) go(stop_of(row.id));\n\
}\n\
const stop_of = (id) => (rows.has(id) ? stops.indexOf(ids.indexOf(id), 1) : 0);\n\
const follow = () => go(stop_of(location.hash.slice(1)), false);\n\
lay_out();\n\
find_stops();\n\
lay_out_network();\n\
by_id(\"slider\").max = stops.length - 1;\n\
by_id(\"slider\").oninput = (event) => go(+event.target.value);\n\
by_id(\"back\").onclick = () => step(-1);\n\
by_id(\"on\").onclick = () => step(1);\n\
by_id(\"settle-back\").onclick = () => settle(-1);\n\
by_id(\"settle-on\").onclick = () => settle(1);\n\
for (const head of document.querySelectorAll(\".hd\")) {\n\
head.setAttribute(\"tabindex\", \"0\");\n\
head.setAttribute(\"role\", \"button\");\n\
head.setAttribute(\"aria-pressed\", \"false\");\n\
}\n\
document.addEventListener(\"click\", clicked);\n\
document.addEventListener(\"keydown\", keys);\n\
addEventListener(\"hashchange\", follow);\n\
addEventListener(\"load\", () => requestAnimationFrame(follow));\n\
follow();\n\
</script>\n\
</body>\n\
</html>\n";
