//! The page around its data, as page.html and page.js have it: scripts/write-page-form writes this.
ghost use Rattle.std.specs.Prelude.{◌≡◌};
ghost use Rattle.pages.specs.Form as spec;

/// What the page begins with, up to its data.
#[tactic(auto, unfolding(crate::specs::Form::head))]
pub(crate) fn head() -> &'static str
    ensures { result.now ≡ spec.head }
{
    "\
<!DOCTYPE html>
<html lang=\"en\">
<head>
<meta charset=\"utf-8\">
<meta name=\"viewport\" content=\"width=device-width, initial-scale=1\">
<title>logtm: a run, step by step</title>
<style>
:root {
  color-scheme: light dark;
  --back: #ffffff; --ink: #1a1a1a; --soft: #595959; --rule: #b8b8b8; --card: #f6f6f4;
  --changed: #fff2c4; --mark: #8a5a00; --blue: #0060a0; --red: #a83a00; --green: #00684a;
}
@media (prefers-color-scheme: dark) {
  :root {
    --back: #17181a; --ink: #ececec; --soft: #a9a9a9; --rule: #55585c; --card: #202225;
    --changed: #473a10; --mark: #f0c04a; --blue: #6ab8ee; --red: #f5925e; --green: #57cfa6;
  }
}
* { box-sizing: border-box; }
body { margin: 0; background: var(--back); color: var(--ink); font: 14px/1.4 system-ui, sans-serif; }
header { position: sticky; top: 0; z-index: 1; background: var(--back); border-bottom: 1px solid var(--rule); padding: 6px 12px; }
h1 { font-size: 16px; margin: 0 16px 0 0; display: inline-block; }
h2 { font-size: 14px; margin: 0 0 4px; }
h3 { font-size: 11px; margin: 8px 0 2px; color: var(--soft); font-weight: 600; }
code, pre, .mono, td, th, li { font-family: ui-monospace, \"DejaVu Sans Mono\", monospace; font-size: 12px; }
#controls { display: flex; flex-wrap: wrap; gap: 6px; align-items: center; }
button, select, input { font: inherit; font-size: 13px; color: inherit; background: var(--card); border: 1px solid var(--rule); border-radius: 4px; padding: 2px 8px; }
button:disabled { opacity: 0.45; }
:focus-visible { outline: 3px solid var(--blue); outline-offset: 1px; }
#slider { width: 100%; margin: 6px 0 0; padding: 0; }
#number { width: 6.5em; }
#what { margin: 8px 12px; min-height: 3.6em; overflow-wrap: anywhere; }
#entry { font-weight: 600; }
.refusal { color: var(--mark); }
.abort { color: var(--red); }
#columns, #wires { display: grid; gap: 6px; margin: 0 12px; }
#wires { row-gap: 2px; margin-top: 8px; min-height: 5em; align-content: start; }
.column { background: var(--card); border: 1px solid var(--rule); border-radius: 6px; padding: 6px; min-width: 0; overflow-wrap: anywhere; }
.column .mono, .column li { font-size: 11px; }
.column.actor { border: 2px solid var(--blue); padding: 5px; }
.column.actor h2::after { content: \" (this step)\"; font-weight: 400; color: var(--blue); font-size: 11px; }
.changed { background: var(--changed); box-shadow: inset 3px 0 0 var(--mark); font-weight: 700; padding-left: 5px; }
.tx { border-left: 4px solid var(--green); padding-left: 5px; }
.tx.aborting { border-left: 4px dashed var(--red); }
ul { list-style: none; margin: 0; padding: 0; }
.set { display: flex; flex-wrap: wrap; gap: 2px; align-items: baseline; margin-bottom: 2px; }
.set > span { color: var(--soft); font-size: 11px; min-width: 1.2em; }
.way { border: 1px solid var(--rule); border-radius: 3px; padding: 0 3px; font-family: ui-monospace, \"DejaVu Sans Mono\", monospace; font-size: 11px; min-width: 1.3em; min-height: 1.5em; }
.way.S { border-style: dotted; }
.way.E { border-style: dashed; }
.way.M { border-style: solid; border-color: var(--ink); }
.way.changed { padding-left: 5px; }
.wire { position: relative; border-bottom: 2px solid var(--blue); margin: 0 calc(50% / var(--span)) 5px; text-align: center; font-family: ui-monospace, \"DejaVu Sans Mono\", monospace; font-size: 11px; line-height: 1.25; padding: 0 10px 2px; overflow-wrap: anywhere; }
.wire::after { position: absolute; bottom: -6px; border: 5px solid transparent; content: \"\"; }
.wire.right::after { border-left: 10px solid var(--blue); right: -8px; }
.wire.left::after { border-right: 10px solid var(--blue); left: -8px; }
.wire.sent { font-weight: 700; background: var(--changed); }
.wire.arrived { border-bottom-style: dotted; color: var(--soft); }
.wire.held { border-bottom-style: dashed; }
table { border-collapse: collapse; margin: 8px 12px; }
th, td { border: 1px solid var(--rule); padding: 1px 8px; text-align: left; }
details { margin: 8px 12px; }
summary { cursor: pointer; font-size: 12px; color: var(--soft); }
.column details { margin: 8px 0 0; }
@media print {
  header { position: static; }
  #controls, #slider { display: none; }
  .changed, .wire.sent { -webkit-print-color-adjust: exact; print-color-adjust: exact; }
}
</style>
</head>
<body>
<header>
<div id=\"controls\">
<h1>logtm</h1>
<button id=\"first\" title=\"to the beginning (Home)\">First</button>
<button id=\"back\" title=\"one step back (left arrow)\">Back</button>
<button id=\"play\" title=\"play or pause (space)\">Play</button>
<button id=\"forward\" title=\"one step forward (right arrow)\">Forward</button>
<button id=\"last\" title=\"to the end (End)\">Last</button>
<label>Step <input id=\"number\" type=\"number\" min=\"0\"></label> <span id=\"count\"></span>
<button id=\"next-entry\" title=\"to the next entry (e)\">Next entry</button>
<button id=\"next-refusal\" title=\"to the next refusal (r)\">Next refusal</button>
<button id=\"next-abort\" title=\"to the next abort (a)\">Next abort</button>
<label>Block <select id=\"block\"></select></label>
<button id=\"next-message\" title=\"to the next message of the block (m)\">Next message</button>
</div>
<input id=\"slider\" type=\"range\" min=\"0\" value=\"0\" aria-label=\"Step\">
</header>
<main>
<div id=\"what\" aria-live=\"polite\"><div id=\"title\"></div><code id=\"entry\"></code></div>
<div id=\"columns\"></div>
<div id=\"wires\" aria-label=\"Messages in flight\"></div>
<details open><summary>Messages in flight, the oldest first</summary><ul id=\"flights\"></ul></details>
<table id=\"memory\"></table>
</main>
<noscript>This page needs its script.</noscript>
<script>
const RUN = {
"
}

/// What comes behind its data: the script, and the end.
#[tactic(auto, unfolding(crate::specs::Form::tail))]
pub(crate) fn tail() -> &'static str
    ensures { result.now ≡ spec.tail }
{
    "\
]};
</script>
<script>
\"use strict\";
// Shows RUN, a run of logtm, one step after another. It tells how the run begins; and a moment of it tells what its step left of one hart and of one
// entry of the directory, what is in flight, and the words. The states between are put together here. State n is the one behind n steps.

const LAST = RUN.moments.length;
const APART = 50; // how many steps lie between two states that are kept
const REGISTERS = \"zero ra sp gp tp t0 t1 t2 s0 s1 a0 a1 a2 a3 a4 a5 a6 a7 s2 s3 s4 s5 s6 s7 s8 s9 s10 s11 t3 t4 t5 t6\".split(\" \");
const FIRST_ENTRY = \"owner none sharers - busy -\";

// ---- states

const flightsOf = (told, before) => new Map(told.map((flight) => (Array.isArray(flight) ? flight : [flight, before.get(flight)])));

function firstState() {
  return {
    harts: RUN.first.harts.slice(),
    directory: new Map(),
    flights: flightsOf(RUN.first.flights, new Map()), // texts of messages, by their numbers
    words: RUN.first.words,
  };
}

function copyOf(state) {
  return { harts: state.harts.slice(), directory: new Map(state.directory), flights: state.flights, words: state.words };
}

// Makes of a state the one behind a moment.
function apply(state, moment) {
  if (moment.hart) state.harts[moment.hart.id] = moment.hart;
  if (moment.directory) {
    const block = moment.directory.slice(0, 8);
    const entry = moment.directory.slice(9);
    if (entry === FIRST_ENTRY) state.directory.delete(block);
    else state.directory.set(block, entry);
  }
  state.flights = flightsOf(moment.flights, state.flights);
  state.words = moment.words;
}

const blockOf = (line) => line.slice(0, 8);
const setOf = (line) => Math.floor(parseInt(blockOf(line), 16) / 32) % RUN.sets;

// Says of a hart in which places, by set and way, its lines stand. As in the machine, a line stays where it stood, and a block that gets one gets the
// lowest way of its set that was free.
function placeLines(hart, before) {
  const stood = before ? before.lines.map(blockOf) : [];
  const taken = new Set(before ? before.places : []);
  hart.places = hart.lines.map((line) => {
    const index = stood.indexOf(blockOf(line));
    if (index >= 0) return before.places[index];
    let place = setOf(line) * RUN.ways;
    while (taken.has(place)) place += 1;
    taken.add(place);
    return place;
  });
}

const kept = [];
const texts = new Map(); // of all messages, by their numbers
const blocks = new Set();
const usedSets = new Set();

function noteHart(hart, before) {
  placeLines(hart, before);
  for (const line of hart.lines) usedSets.add(setOf(line));
}

function noteFlights(flights) {
  for (const flight of flights) {
    if (!Array.isArray(flight)) continue;
    texts.set(flight[0], flight[1]);
    blocks.add(flight[1].split(\" \")[2]);
  }
}

function keepStates() {
  const state = firstState();
  state.harts.forEach((hart) => noteHart(hart, null));
  noteFlights(RUN.first.flights);
  RUN.moments.forEach((moment, number) => {
    if (number % APART === 0) kept.push(copyOf(state));
    if (moment.hart) noteHart(moment.hart, state.harts[moment.hart.id]);
    noteFlights(moment.flights);
    apply(state, moment);
  });
  if (LAST % APART === 0) kept.push(copyOf(state));
}

function stateAt(number) {
  const from = Math.floor(number / APART);
  const state = copyOf(kept[from]);
  for (let step = from * APART; step < number; step += 1) apply(state, RUN.moments[step]);
  return state;
}

// ---- elements

function make(name, text, ...classes) {
  const element = document.createElement(name);
  if (text !== null) element.textContent = text;
  element.classList.add(...classes.filter((word) => word));
  return element;
}

function at(id) {
  return document.getElementById(id);
}

function marked(now, before) {
  return now === before ? \"\" : \"changed\";
}

const hex = (value) => \"0x\" + value.toString(16).padStart(8, \"0\");

function transactionText(hart) {
  if (!hart.tx) return \"none\";
  const { depth, records, stamp, overflow, cycle, aborting } = hart.tx;
  const bits = (overflow ? \" overflow\" : \"\") + (cycle ? \" cycle\" : \"\") + (aborting ? \" aborting\" : \"\");
  return \"depth \" + depth + \" records \" + records + \" stamp \" + stamp + bits;
}

const pcText = (hart) => \"pc=0x\" + hart.pc + (hart.name || \"\");
const waitText = (hart) => (hart.waits ? \"waits 0x\" + hart.waits : \"\");

// A fact of a hart, marked if it changed.
function fact(id, name, now, before, ...classes) {
  const element = make(\"div\", now, \"mono\", marked(now, before), ...classes);
  element.id = name + \"-\" + id;
  return element;
}

// The line in a place as its block, its state and marks, or none.
function lineIn(hart, place) {
  const index = hart.places.indexOf(place);
  if (index < 0) return null;
  const [block, letter, marks] = hart.lines[index].split(\" \");
  return { block, letter, text: parseInt(block, 16).toString(16) + \" \" + letter + \" \" + marks, told: block + \" \" + letter + \" \" + marks };
}

function cellOf(hart, was, set, way) {
  const line = lineIn(hart, set * RUN.ways + way);
  const before = lineIn(was, set * RUN.ways + way);
  const text = line ? line.text : \"-\";
  const cell = make(\"div\", text, \"way\", line ? line.letter : \"\", marked(text, before ? before.text : \"-\"));
  cell.title = \"set \" + set + \", way \" + way + (line ? \": block 0x\" + line.block : \": no line\");
  if (line) cell.dataset.line = hart.id + \" 0x\" + line.told;
  return cell;
}

function cacheOf(hart, was) {
  const grid = make(\"div\", null, \"cache\");
  for (const set of [...usedSets].sort((a, b) => a - b)) {
    const row = make(\"div\", null, \"set\");
    row.append(make(\"span\", String(set)));
    for (let way = 0; way < RUN.ways; way += 1) row.append(cellOf(hart, was, set, way));
    grid.append(row);
  }
  return grid;
}

const registerItem = (hart, was, number) => make(\"li\", REGISTERS[number] + \"=\" + hex(hart.regs[number]), marked(hart.regs[number], was.regs[number]));

function registersOf(hart, was) {
  const list = make(\"ul\", null);
  REGISTERS.forEach((name, number) => list.append(registerItem(hart, was, number)));
  return list;
}

function changedRegisters(hart, was) {
  const list = make(\"ul\", null);
  REGISTERS.forEach((name, number) => {
    if (hart.regs[number] !== was.regs[number]) list.append(registerItem(hart, was, number));
  });
  return list;
}

const opened = new Set(); // the harts whose registers are all shown

function allRegisters(hart, was) {
  const id = hart.id;
  const all = make(\"details\", null);
  all.open = opened.has(id);
  all.append(make(\"summary\", \"all registers\"));
  if (all.open) all.append(registersOf(hart, was));
  all.addEventListener(\"toggle\", () => {
    if (all.open === opened.has(id)) return;
    if (all.open) {
      opened.add(id);
      all.append(registersOf(hart, was));
    } else {
      opened.delete(id);
      all.lastChild.remove();
    }
  });
  return all;
}

function hartColumn(hart, was, isActor) {
  const id = hart.id;
  const column = make(\"section\", null, \"column\", isActor ? \"actor\" : \"\");
  column.append(make(\"h2\", \"hart \" + id));
  column.append(fact(id, \"pc\", pcText(hart), pcText(was)), fact(id, \"status\", hart.status, was.status), fact(id, \"next\", hart.next, was.next));
  if (hart.waits) column.append(fact(id, \"waits\", waitText(hart), waitText(was)));
  column.append(make(\"h3\", \"transaction\"));
  const classes = hart.tx ? [\"tx\", hart.tx.aborting ? \"aborting\" : \"\"] : [];
  column.append(fact(id, \"tx\", transactionText(hart), transactionText(was), ...classes));
  column.append(make(\"h3\", \"cache: set, ways\"), cacheOf(hart, was));
  column.append(make(\"h3\", \"registers that changed\"), changedRegisters(hart, was));
  column.append(allRegisters(hart, was));
  return column;
}

const shownHarts = []; // of each hart what its column shows, and the column

// The columns of the harts. One that shows the same as before stays as it is.
function hartColumns(state, before, actor) {
  return state.harts.map((hart, id) => {
    const [was, isActor] = [before.harts[id], actor === id];
    const shown = shownHarts[id];
    if (shown && shown.hart === hart && shown.was === was && shown.isActor === isActor) return shown.column;
    const column = hartColumn(hart, was, isActor);
    shownHarts[id] = { hart, was, isActor, column };
    return column;
  });
}

function directoryColumn(state, before, actor) {
  const column = make(\"section\", null, \"column\", actor === RUN.harts ? \"actor\" : \"\");
  column.append(make(\"h2\", \"directory\"));
  const list = make(\"ul\", null);
  list.id = \"directory\";
  for (const block of [...new Set([...state.directory.keys(), ...before.directory.keys()])].sort()) {
    const entry = state.directory.get(block);
    const text = \"0x\" + block + \" \" + (entry || \"not in use\");
    const item = make(\"li\", text, marked(entry, before.directory.get(block)));
    if (entry) item.dataset.entry = text;
    list.append(item);
  }
  column.append(list);
  return column;
}

// From which column a message goes to which; the directory's is behind those of the harts.
function endsOf(text) {
  const words = text.split(\" \");
  const hart = Number(words[1]);
  switch (words[0]) {
    case \"get\":
    case \"put\":
    case \"done\":
      return [hart, RUN.harts];
    case \"ack\":
    case \"nack\":
      return [hart, Number(words[4])];
    default:
      return [RUN.harts, hart];
  }
}

// The directory holds a request and a Put while their block is busy.
function isHeld(text, state) {
  const [sort, , block] = text.split(\" \");
  const entry = state.directory.get(block.slice(2));
  return (sort === \"get\" || sort === \"put\") && entry !== undefined && !entry.endsWith(\"busy -\");
}

function wire(text, row, ...classes) {
  const [from, to] = endsOf(text);
  const low = Math.min(from, to);
  const high = Math.max(from, to);
  const element = make(\"div\", text, \"wire\", from < to ? \"right\" : \"left\", ...classes);
  element.style.gridColumn = low + 1 + \" / \" + (high + 2);
  element.style.gridRow = row;
  element.style.setProperty(\"--span\", high - low + 1);
  return element;
}

function showFlights(state, moment) {
  const wires = [];
  const list = [];
  const arrived = moment && moment.arrival !== undefined && !state.flights.has(moment.arrival);
  if (arrived) wires.push(wire(texts.get(moment.arrival) + \" (arrives)\", 1, \"arrived\"));
  const isNew = new Set(moment ? moment.flights.filter(Array.isArray).map((flight) => flight[0]) : []);
  for (const [number, text] of [...state.flights].sort((a, b) => a[0] - b[0])) {
    const held = isHeld(text, state) ? \" held\" : \"\";
    const sent = isNew.has(number) ? \"sent\" : \"\";
    wires.push(wire(text + held, wires.length + 1, sent, held.trim()));
    list.push(make(\"li\", text + held, sent ? \"changed\" : \"\"));
  }
  at(\"wires\").replaceChildren(...wires);
  at(\"flights\").replaceChildren(...list);
}

function showMemory(state, before) {
  const rows = [];
  if (RUN.addresses.length) {
    const head = make(\"tr\", null);
    head.append(make(\"th\", \"word\"), make(\"th\", \"in place\"), make(\"th\", \"rolled back\"));
    rows.push(head);
  }
  RUN.addresses.forEach((address, number) => {
    const row = make(\"tr\", null);
    row.append(make(\"td\", \"0x\" + address));
    for (const side of [0, 1]) {
      const value = state.words[2 * number + side];
      const was = before.words[2 * number + side];
      row.append(make(\"td\", value === null ? \"-\" : \"0x\" + value, marked(value, was)));
    }
    rows.push(row);
  });
  at(\"memory\").replaceChildren(...rows);
}

// ---- the step that is shown

let shownStep = 0;

function actorOf(moment) {
  if (!moment) return null;
  if (moment.hart) return moment.hart.id;
  return moment.arrival === undefined ? null : RUN.harts;
}

// A part of an entry that tells a register, a load or a store.
function partInWords(part) {
  const [what, size, access] = part.split(\" \");
  if (size === undefined) return \" and sets \" + what.replace(\"=\", \" to \");
  const [address, value] = access.split(\"=\");
  return (what === \"load\" ? \" and reads \" + value + \" from \" : \" and writes \" + value + \" to \") + address;
}

// What an entry says, in words.
function inWords(entry) {
  const [instruction, ...parts] = entry.split(\" | \");
  const [hart, what, third, fourth, block] = entry.split(\" \");
  switch (what) {
    case \"abort\":
      return \"Hart \" + hart + \" aborts its transaction: \" + entry.split(\" abort \")[1] + \".\";
    case \"trap\":
      return \"Hart \" + hart + \" is stopped by a trap: \" + entry.split(\" \").slice(3).join(\" \") + \".\";
    case \"refuses\":
      return \"Hart \" + hart + \" refuses hart \" + third + \" the block \" + block + \".\";
    case \"spills\":
      return \"Hart \" + hart + \" gives up its line of the block \" + fourth + \", which its transaction has used.\";
    default:
      return \"Hart \" + hart + \" executes \" + instruction.split(\" \").slice(3).join(\" \") + parts.map(partInWords).join(\"\") + \".\";
  }
}

function titleOf(moment) {
  if (!moment) return \"Before the first step.\";
  const said = moment.entry ? \" \" + inWords(moment.entry.trim()) : \"\";
  if (moment.step === \"deliver\") return (moment.arrival === undefined ? \"Nothing arrives.\" : \"Arrives: \" + texts.get(moment.arrival) + \".\") + said;
  const hart = moment.hart ? \"Hart \" + moment.hart.id : \"No hart\";
  return (moment.step === \"core\" ? (moment.entry ? \"\" : hart + \" makes a step of its core.\") : hart + \" is to give up its line: \" + moment.step + \".\") + said;
}

// The line of an entry, with the name of its first address where there is one.
function entryOf(moment) {
  if (!moment || !moment.entry) return \"\";
  return moment.entry.trim().replace(/0x[0-9a-f]{8}/, (address) => address + (moment.name || \"\"));
}

// Puts elements into a parent, where those that it has already stay as they are.
function replaceColumns(parent, columns) {
  if (parent.children.length !== columns.length) return parent.replaceChildren(...columns);
  columns.forEach((column, index) => {
    if (parent.children[index] !== column) parent.children[index].replaceWith(column);
  });
}

function showStep(number) {
  shownStep = Math.max(0, Math.min(LAST, Math.trunc(number)));
  const moment = shownStep > 0 ? RUN.moments[shownStep - 1] : null;
  const before = stateAt(Math.max(0, shownStep - 1));
  const state = copyOf(before);
  if (moment) apply(state, moment);
  at(\"title\").textContent = \"Step \" + shownStep + \" of \" + LAST + \". \" + titleOf(moment);
  at(\"entry\").textContent = entryOf(moment);
  at(\"entry\").className = isRefusal(moment) ? \"refusal\" : isAbort(moment) ? \"abort\" : \"\";
  const actor = actorOf(moment);
  replaceColumns(at(\"columns\"), [...hartColumns(state, before, actor), directoryColumn(state, before, actor)]);
  showFlights(state, moment);
  showMemory(state, before);
  at(\"slider\").value = shownStep;
  at(\"number\").value = shownStep;
  at(\"back\").disabled = at(\"first\").disabled = shownStep === 0;
  at(\"forward\").disabled = at(\"last\").disabled = shownStep === LAST;
}

// Goes to a step, which the address names from then on.
function goTo(number) {
  showStep(number);
  history.replaceState(null, \"\", \"#\" + shownStep);
}

// ---- what is looked for

const isEntry = (moment) => moment !== null && moment.entry !== undefined;
const isRefusal = (moment) => isEntry(moment) && moment.entry.includes(\" refuses \");
const isAbort = (moment) => isEntry(moment) && moment.entry.includes(\" abort \");

// Whether a message of the chosen block is sent or arrives.
function hasMessage(moment) {
  const told = moment.flights.filter(Array.isArray).map((flight) => flight[1]);
  if (moment.arrival !== undefined) told.push(texts.get(moment.arrival));
  return told.some((text) => text.split(\" \")[2] === at(\"block\").value);
}

function goToNext(test) {
  const index = RUN.moments.findIndex((moment, number) => number >= shownStep && test(moment));
  if (index >= 0) goTo(index + 1);
  else at(\"title\").textContent = \"Step \" + shownStep + \" of \" + LAST + \". There is no later one.\";
}

let timer = null;

function pause() {
  clearInterval(timer);
  timer = null;
  at(\"play\").textContent = \"Play\";
}

function playOrPause() {
  if (timer !== null) return pause();
  at(\"play\").textContent = \"Pause\";
  timer = setInterval(() => (shownStep < LAST ? goTo(shownStep + 1) : pause()), 700);
}

const ACTIONS = {
  first: () => goTo(0),
  back: () => goTo(shownStep - 1),
  play: playOrPause,
  forward: () => goTo(shownStep + 1),
  last: () => goTo(LAST),
  \"next-entry\": () => goToNext(isEntry),
  \"next-refusal\": () => goToNext(isRefusal),
  \"next-abort\": () => goToNext(isAbort),
  \"next-message\": () => goToNext(hasMessage),
};

const KEYS = {
  Home: \"first\", ArrowLeft: \"back\", \" \": \"play\", ArrowRight: \"forward\", End: \"last\",
  e: \"next-entry\", r: \"next-refusal\", a: \"next-abort\", m: \"next-message\",
};

function listen() {
  for (const [id, action] of Object.entries(ACTIONS)) at(id).addEventListener(\"click\", action);
  at(\"slider\").addEventListener(\"input\", () => goTo(Number(at(\"slider\").value)));
  at(\"number\").addEventListener(\"change\", () => goTo(Number(at(\"number\").value)));
  addEventListener(\"hashchange\", () => showStep(Number(location.hash.slice(1)) || 0));
  addEventListener(\"keydown\", (event) => {
    const isField = [\"INPUT\", \"SELECT\", \"BUTTON\", \"SUMMARY\"].includes(event.target.tagName);
    if (event.ctrlKey || event.altKey || event.metaKey || !(event.key in KEYS)) return;
    if (isField && (event.key === \" \" || event.target.id === \"number\" || event.target.id === \"block\")) return;
    event.preventDefault();
    ACTIONS[KEYS[event.key]]();
  });
}

function begin() {
  keepStates();
  for (const block of [...blocks].sort()) at(\"block\").append(make(\"option\", block));
  at(\"slider\").max = at(\"number\").max = LAST;
  at(\"count\").textContent = \"of \" + LAST;
  const columns = \"repeat(\" + (RUN.harts + 1) + \", minmax(0, 1fr))\";
  at(\"columns\").style.gridTemplateColumns = at(\"wires\").style.gridTemplateColumns = columns;
  listen();
  showStep(Number(location.hash.slice(1)) || 0);
}

begin();
</script>
</body>
</html>
"
}
