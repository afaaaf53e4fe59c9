//! The fixed parts of a page: written by `tools/page-parts` from crates/alarm_page/page.
#![tactic(auto)]

/// What stands before the style.
pub const HEAD: &str = "\
<!DOCTYPE html>
<html lang=\"en\">
<head>
<meta charset=\"utf-8\">
<meta name=\"viewport\" content=\"width=device-width, initial-scale=1\">
<meta http-equiv=\"Content-Security-Policy\" content=\"default-src 'none'; style-src 'unsafe-inline'; script-src 'unsafe-inline'; base-uri 'none'; form-action 'none'\">
<title>famlint: the alarms of a family</title>
<style>
";

/// The style.
pub const STYLE: &str = "\
:root {
  color-scheme: light dark;
  --ground: #ffffff;
  --text: #1b1b1b;
  --soft: #565656;
  --rule: #8a8a8a;
  --link: #0b4f9e;
  --panel: #f3f4f6;
  --alarm: #a30000;
  --alarm-ground: #fdeaea;
  --known: #0a5a2a;
  --group-1: #eef3fb;
  --group-2: #e3ebf7;
  --group-3: #d8e3f3;
  --group-4: #cddbef;
}
@media (prefers-color-scheme: dark) {
  :root {
    --ground: #14161a;
    --text: #e8e8e8;
    --soft: #a9adb5;
    --rule: #7d828c;
    --link: #8ebcff;
    --panel: #1e2127;
    --alarm: #ff9c94;
    --alarm-ground: #3a1c1c;
    --known: #85d9a0;
    --group-1: #1a2230;
    --group-2: #1f293b;
    --group-3: #243046;
    --group-4: #293751;
  }
}
* { box-sizing: border-box; }
body { margin: 0 auto; max-width: 110rem; padding: 0 1rem 2rem; background: var(--ground); color: var(--text); font: 1rem/1.45 system-ui, sans-serif; }
h1 { font-size: 1.4rem; margin: 1rem 0 0.25rem; }
h2 { font-size: 1.1rem; margin: 1rem 0 0.5rem; }
h3 { font-size: 1rem; margin: 1rem 0 0.25rem; }
summary h2 { display: inline; }
a { color: var(--link); }
pre, code { font: 0.875rem/1.45 ui-monospace, monospace; }
pre { margin: 0.5rem 0; overflow-x: auto; tab-size: 4; }
:focus-visible { outline: 3px solid var(--link); outline-offset: 1px; }
.skip { position: absolute; left: -100rem; }
.skip:focus { left: 1rem; top: 0.25rem; background: var(--ground); padding: 0.25rem 0.5rem; }
#count { font-size: 1.1rem; margin: 0.25rem 0 0.75rem; }
.numbered { display: flex; gap: 1rem; }
#numbers { color: var(--soft); text-align: right; flex: none; }
#file { flex: 1; min-width: 0; }
/* the texts are not laid out while the script makes the view; where it fails, they are shown */
@media (scripting: enabled) {
  #view[hidden]:not(.failed) ~ #texts { display: none; }
}

#view { display: grid; grid-template-columns: 19rem minmax(0, 1fr); gap: 0 1.5rem; align-items: start; }
#view[hidden] { display: none; }
#panel { background: var(--panel); padding: 0 1rem 1rem; border: 1px solid var(--rule); border-radius: 0.4rem; position: sticky; top: 0.5rem; max-height: calc(100vh - 1rem); overflow: auto; }
#features div { display: flex; flex-wrap: wrap; align-items: center; gap: 0.4rem; padding: 0.15rem 0; }
#features label { font: 0.875rem/1.45 ui-monospace, monospace; overflow-wrap: anywhere; }
#features input[type=\"checkbox\"] { width: 1.25rem; height: 1.25rem; margin: 0; }
#features input[type=\"number\"] { width: 6.5rem; font: inherit; color: var(--text); background: var(--ground); border: 1px solid var(--rule); padding: 0.1rem 0.3rem; }
#features .range { color: var(--soft); font-size: 0.875rem; }
#constraints { margin: 0; padding-left: 1.6rem; }
#constraints code { overflow-wrap: anywhere; }
.broken { color: var(--alarm); font-weight: 600; }

#list { margin: 0; padding-left: 1.8rem; }
#list li { padding: 0.15rem 0; }
#list button, .note button { font: inherit; color: var(--link); background: none; border: 1px solid var(--rule); border-radius: 0.3rem; padding: 0.05rem 0.45rem; cursor: pointer; }
.alarm { color: var(--soft); }
.alarm code { overflow-wrap: anywhere; white-space: pre-wrap; }
.alarm.lit { color: var(--alarm); font-weight: 600; }
.alarm .state { font-weight: 400; font-style: italic; }
.help, .legend { color: var(--soft); margin: 0.25rem 0; font-size: 0.9rem; }
.help label { color: var(--text); white-space: nowrap; }

#listing { border: 1px solid var(--rule); border-radius: 0.4rem; overflow-x: auto; padding: 0.25rem 0; }
.line { content-visibility: auto; contain-intrinsic-size: auto 1.3rem; min-width: max-content; padding-right: 1rem; }
.line:target { outline: 2px solid var(--link); outline-offset: -2px; }
.row { display: flex; align-items: baseline; }
.number { flex: none; width: 4.2rem; padding: 0 0.4rem; text-align: right; color: var(--soft); background: none; border: 0; font: 0.875rem/1.45 ui-monospace, monospace; }
button.number { color: var(--link); cursor: pointer; text-decoration: underline; }
.mark { display: inline-block; width: 1.1rem; flex: none; text-align: center; font: 700 0.875rem/1.45 ui-monospace, monospace; }
.alarm-mark, .has-alarm .row .mark { color: var(--alarm); }
.row code { white-space: pre; tab-size: 4; }
.depth-1 { background: var(--group-1); }
.depth-2 { background: var(--group-2); }
.depth-3 { background: var(--group-3); }
.depth-4 { background: var(--group-4); }
.directive code { font-weight: 600; }
.left-out code { color: var(--soft); text-decoration: line-through; text-decoration-color: var(--rule); }
.unreachable code { font-style: italic; color: var(--soft); }
.has-alarm > .row { background: var(--alarm-ground); }
.note, .known { width: 0; min-width: min(100%, 70rem); white-space: normal; }
.note { padding: 0.1rem 0.5rem 0.1rem 5.3rem; font-size: 0.9rem; }
.known { padding: 0 0.5rem 0.15rem 5.3rem; color: var(--known); font: 0.84rem/1.45 ui-monospace, monospace; overflow-wrap: anywhere; }
.hidden-text { position: absolute; width: 1px; height: 1px; overflow: hidden; clip-path: inset(50%); white-space: nowrap; }

@media (max-width: 52rem) {
  body { padding: 0 0.5rem 1rem; }
  #view { display: block; }
  #panel { position: static; max-height: none; }
  .number { width: 3.2rem; }
  .note, .known { padding-left: 4.3rem; min-width: min(100%, 100vw - 1.5rem); }
}
@media (forced-colors: active) {
  .has-alarm > .row { outline: 2px solid; outline-offset: -2px; }
}
@media print {
  :root { color-scheme: light; --ground: #ffffff; --text: #000000; --soft: #444444; --alarm: #8a0000; --known: #084a22; --link: #000000; }
  body { max-width: none; font-size: 10pt; }
  #view { display: block; }
  #panel { position: static; max-height: none; overflow: visible; }
  .skip, .help, #list button, .note button, #view:not([hidden]) ~ #texts { display: none; }
  .line { content-visibility: visible; min-width: 0; }
  .row code { white-space: pre-wrap; }
  .line, #list li { break-inside: avoid; }
}
";

/// What stands before the alarms.
pub const BEFORE_ALARMS: &str = "\
</style>
</head>
<body>
<a class=\"skip\" href=\"#list-title\">To the alarms</a>
<a class=\"skip\" href=\"#source-title\">To the source</a>
<header>
<h1>The alarms of a family</h1>
<p id=\"count\" role=\"status\">Each alarm below has a region: a condition on the features. A configuration has the alarm where it meets the region.</p>
</header>
<div id=\"view\" hidden>
<section id=\"panel\" aria-labelledby=\"panel-title\">
<h2 id=\"panel-title\">Configuration</h2>
<form id=\"features\"></form>
<h3>Constraints of the model</h3>
<p id=\"validity\"></p>
<ol id=\"constraints\"></ol>
</section>
<main>
<section aria-labelledby=\"list-title\">
<h2 id=\"list-title\" tabindex=\"-1\">Alarms</h2>
<ol id=\"list\"></ol>
</section>
<section aria-labelledby=\"source-title\">
<h2 id=\"source-title\" tabindex=\"-1\">Source</h2>
<p class=\"help\">The number of a line shows what is known there in this configuration. The arrow keys go from number to number.
<label><input type=\"checkbox\" id=\"all-known\"> at all lines</label></p>
<p class=\"legend\"><span class=\"mark alarm-mark\">!</span> alarm of this configuration, <span class=\"mark\">?</span> alarm of others, <span class=\"mark\">-</span> left out, <span class=\"mark\">0</span> unreachable</p>
<div id=\"listing\"></div>
</section>
</main>
</div>
<div id=\"texts\">
<details open>
<summary><h2>The alarms</h2></summary>
<pre id=\"alarms\" tabindex=\"0\" role=\"region\" aria-label=\"the alarms\">
";

/// What stands before the numbers of lines.
pub const BEFORE_NUMBERS: &str = "\
</pre>
</details>
<details open>
<summary><h2>The source</h2></summary>
<div class=\"numbered\"><pre id=\"numbers\" aria-hidden=\"true\">
";

/// What stands before the file.
pub const BEFORE_FILE: &str = "\
</pre><pre id=\"file\" tabindex=\"0\" role=\"region\" aria-label=\"the source\">
";

/// What stands before the whole report.
pub const BEFORE_REPORT: &str = "\
</pre></div>
</details>
<details open>
<summary><h2>The whole report: what is known at each place, and the alarms</h2></summary>
<pre id=\"report\" tabindex=\"0\" role=\"region\" aria-label=\"the whole report\">
";

/// What stands before the model.
pub const BEFORE_MODEL: &str = "\
</pre>
</details>
<details open>
<summary><h2>The model</h2></summary>
<pre id=\"model\" tabindex=\"0\" role=\"region\" aria-label=\"the model\">
";

/// What stands before the lines on how the page was made.
pub const BEFORE_ABOUT: &str = "\
</pre>
</details>
</div>
<footer>
<h2>How this page was made</h2>
<pre id=\"about\" tabindex=\"0\" role=\"region\" aria-label=\"how this page was made\">
";

/// What stands before the script.
pub const BEFORE_SCRIPT: &str = "\
</pre>
<p>It is proved that this page holds the bytes of the model and of the file, and exactly what
<code>famlint invariants</code> prints of them: the texts above, as they stand in the page. What its script makes of them, the switches, the marks and the count, is tested and not proved.</p>
</footer>
<script>
";

/// The script.
pub const SCRIPT: &str = "\
\"use strict\";
// The texts of the page: read from its elements, and taken apart line by line.

// HTML reads `&#x80;` to `&#x9f;` as characters of windows-1252, and `&#x00;` as U+FFFD (HTML Standard, \"Numeric character reference end
// state\"). Each of these characters stands for one byte.
const CHARACTERS = new Map([
  [0xfffd, 0x00], [0x20ac, 0x80], [0x201a, 0x82], [0x0192, 0x83], [0x201e, 0x84], [0x2026, 0x85], [0x2020, 0x86], [0x2021, 0x87],
  [0x02c6, 0x88], [0x2030, 0x89], [0x0160, 0x8a], [0x2039, 0x8b], [0x0152, 0x8c], [0x017d, 0x8e], [0x2018, 0x91], [0x2019, 0x92],
  [0x201c, 0x93], [0x201d, 0x94], [0x2022, 0x95], [0x2013, 0x96], [0x2014, 0x97], [0x02dc, 0x98], [0x2122, 0x99], [0x0161, 0x9a],
  [0x203a, 0x9b], [0x0153, 0x9c], [0x017e, 0x9e], [0x0178, 0x9f],
]);

/** The bytes that a text of the page stands for. */
function bytesOf(text) {
  const bytes = new Uint8Array(text.length);
  for (let at = 0; at < text.length; at++) {
    const code = text.charCodeAt(at);
    bytes[at] = CHARACTERS.get(code) ?? code;
  }
  return bytes;
}

const decoder = new TextDecoder(\"utf-8\", { ignoreBOM: true });

/** Bytes as text; what is no UTF-8 becomes U+FFFD. */
function decoded(bytes) {
  return decoder.decode(bytes);
}

/** The lines of a file, each as bytes without its newline. */
function linesOf(bytes) {
  const lines = [];
  let start = 0;
  for (let end = bytes.indexOf(10); end >= 0; end = bytes.indexOf(10, start)) {
    lines.push(bytes.subarray(start, end));
    start = end + 1;
  }
  if (start < bytes.length) lines.push(bytes.subarray(start));
  return lines;
}

/** An example, as names with their values: `A=1 N=-3`, or `-` where there is no feature. */
function valuesOf(example) {
  const settings = example === \"-\" ? [] : example.split(\" \");
  return new Map(settings.map((setting) => {
    const [name, value] = setting.split(\"=\");
    return [name, BigInt(value)];
  }));
}

/** The alarms of a report: lines `LINE:COLUMN: KIND if REGION; example CONFIGURATION`. */
function alarmsOf(text) {
  const alarms = [];
  for (const line of text.split(\"\\n\")) {
    const parts = /^(\\d+):(\\d+): ([a-z-]+) if (.*); example (.*)$/.exec(line);
    if (parts) {
      const [, at, column, kind, region, example] = parts;
      alarms.push({ line: Number(at), column: Number(column), kind, region, example });
    }
  }
  return alarms;
}

/** What is known: lines `LINE:COLUMN: if REGION: LEAF`. */
function invariantsOf(text) {
  const invariants = [];
  for (const line of text.split(\"\\n\")) {
    const parts = /^(\\d+):(\\d+): if (.*?): (.*)$/.exec(line);
    if (parts) {
      const [, at, column, region, leaf] = parts;
      invariants.push({ line: Number(at), column: Number(column), region, leaf });
    }
  }
  return invariants;
}

/** The features and constraints of a model. A switch is a number from 0 to 1. */
function modelOf(text) {
  const model = JSON.parse(text);
  const features = model.features.map(({ name, min, max }) =>
    min === undefined ? { name, isSwitch: true, min: 0n, max: 1n } : { name, isSwitch: false, min: BigInt(min), max: BigInt(max) });
  return { features, constraints: model.constraints ?? [] };
}
// Conditions as in `#if` (ISO/IEC 9899:2011, 6.10.1), and the groups of a file.

const LEVELS = [[\"||\"], [\"&&\"], [\"==\", \"!=\"], [\"<\", \"<=\", \">\", \">=\"], [\"+\", \"-\"], [\"*\"]];

/** What operators make of two numbers. `&&` and `||` have no side that could stop. */
const OPERATIONS = {
  \"||\": (a, b) => truth(a !== 0n || b !== 0n),
  \"&&\": (a, b) => truth(a !== 0n && b !== 0n),
  \"==\": (a, b) => truth(a === b),
  \"!=\": (a, b) => truth(a !== b),
  \"<\": (a, b) => truth(a < b),
  \"<=\": (a, b) => truth(a <= b),
  \">\": (a, b) => truth(a > b),
  \">=\": (a, b) => truth(a >= b),
  \"+\": (a, b) => a + b,
  \"-\": (a, b) => a - b,
  \"*\": (a, b) => a * b,
};

function truth(holds) {
  return holds ? 1n : 0n;
}

function tokensOf(text) {
  const tokens = text.match(/[A-Za-z_][A-Za-z_0-9]*|[0-9][0-9A-Za-z]*|&&|\\|\\||[=!<>]=|[!+\\-*<>()]|\\S/g) ?? [];
  return { list: tokens, at: 0 };
}

function taken(tokens, ...words) {
  if (!words.includes(tokens.list[tokens.at])) return undefined;
  return tokens.list[tokens.at++];
}

/** An integer constant: decimal, octal or hexadecimal, perhaps with a suffix that says long (ISO/IEC 9899:2011, 6.4.4.1). */
function numberOf(word) {
  const [, digits] = /^(0[xX][0-9a-fA-F]+|[0-9]+)(?:l|L|ll|LL)?$/.exec(word) ?? [];
  if (digits === undefined) throw new Error(`no condition: ${word}`);
  return BigInt(/^0[0-7]+$/.test(digits) ? `0o${digits.slice(1)}` : digits);
}

function parseName(tokens) {
  const isGroup = taken(tokens, \"(\") !== undefined;
  const name = tokens.list[tokens.at++];
  if (isGroup) tokens.at++;
  return name;
}

/** A name, a number, a group, or one of these behind a prefix, as a function of an environment. */
function parsePrimary(tokens) {
  const prefix = taken(tokens, \"!\", \"-\", \"+\");
  if (prefix !== undefined) {
    const operand = parsePrimary(tokens);
    if (prefix === \"!\") return (names) => truth(operand(names) === 0n);
    return prefix === \"-\" ? (names) => -operand(names) : operand;
  }
  if (taken(tokens, \"(\") !== undefined) {
    const inner = parseLevel(tokens, 0);
    if (taken(tokens, \")\") === undefined) throw new Error(\"no )\");
    return inner;
  }
  if (taken(tokens, \"defined\") !== undefined) {
    const name = parseName(tokens);
    return (names) => truth(names.has(name));
  }
  const word = tokens.list[tokens.at++];
  if (/^[A-Za-z_]/.test(word)) return (names) => names.get(word) ?? 0n;
  const number = numberOf(word);
  return () => number;
}

function parseLevel(tokens, level) {
  if (level === LEVELS.length) return parsePrimary(tokens);
  let left = parseLevel(tokens, level + 1);
  for (let sign = taken(tokens, ...LEVELS[level]); sign !== undefined; sign = taken(tokens, ...LEVELS[level])) {
    const operation = OPERATIONS[sign];
    const first = left;
    const second = parseLevel(tokens, level + 1);
    left = (names) => operation(first(names), second(names));
  }
  return left;
}

const parsed = new Map();

/** A condition as a test of an environment: the macros that are defined, with their values. */
function conditionOf(text) {
  let test = parsed.get(text);
  if (test === undefined) {
    const tokens = tokensOf(text);
    const value = parseLevel(tokens, 0);
    if (tokens.at < tokens.list.length) throw new Error(`behind a condition: ${tokens.list[tokens.at]}`);
    test = (names) => value(names) !== 0n;
    parsed.set(text, test);
  }
  return test;
}

/** The macros of a configuration: a switch that is off is not defined. */
function environmentOf(features, values) {
  const names = new Map();
  for (const { name, isSwitch } of features) {
    const value = values.get(name);
    if (!isSwitch || value !== 0n) names.set(name, value);
  }
  return names;
}

/** The numbers of the constraints that are false, and the names of the features out of range. */
function faultsOf(model, values) {
  const outside = model.features.filter(({ name, min, max }) => {
    const value = values.get(name);
    return value === undefined || value < min || value > max;
  });
  if (outside.length > 0) return { outside: outside.map((feature) => feature.name), broken: [] };
  const names = environmentOf(model.features, values);
  const broken = model.constraints.map((_, at) => at).filter((at) => !conditionOf(model.constraints[at])(names));
  return { outside: [], broken };
}

/** A file without its comments: spaces in their place, and newlines as they were. */
function withoutComments(text) {
  return text.replace(/\\/\\*[^]*?\\*\\/|\\/\\/[^\\n]*/g, (comment) => comment.replace(/[^\\n]/g, \" \"));
}

/** The test of a group: its section is kept, no earlier group of the section is, and its own condition holds. */
function groupOf(outer, earlier, test) {
  return { outer, earlier, test };
}

function testOf(word, rest) {
  if (word === \"ifdef\") return conditionOf(`defined ${rest}`);
  if (word === \"ifndef\") return conditionOf(`!defined ${rest}`);
  return word === \"else\" ? () => true : conditionOf(rest);
}

/**
 * The lines of a file with what keeps them. Each has a depth, and the group around it, or null; the line of a group directive belongs to
 * what stands around its section.
 */
function groupedLines(text) {
  const open = [];
  const inner = () => (open.length > 0 ? open[open.length - 1].group : null);
  return withoutComments(text).split(\"\\n\").map((line) => {
    const [, word, rest] = /^\\s*#\\s*([a-z]*)(.*)$/.exec(line) ?? [];
    if (word === \"if\" || word === \"ifdef\" || word === \"ifndef\") {
      const outer = inner();
      open.push({ outer, group: groupOf(outer, [], testOf(word, rest.trim())) });
      return { depth: open.length, group: outer, isDirective: true };
    }
    if ((word === \"elif\" || word === \"else\" || word === \"endif\") && open.length > 0) {
      const section = open[open.length - 1];
      const depth = open.length;
      if (word === \"endif\") open.pop();
      else section.group = groupOf(section.outer, [...section.group.earlier, section.group.test], testOf(word, rest.trim()));
      return { depth, group: section.outer, isDirective: true };
    }
    return { depth: open.length, group: inner(), isDirective: word !== undefined };
  });
}

/** Which groups an environment keeps, asked once for each. */
function keeping(names) {
  const known = new Map([[null, true]]);
  return function isKept(group) {
    let kept = known.get(group);
    if (kept === undefined) {
      kept = isKept(group.outer) && !group.earlier.some((test) => test(names)) && group.test(names);
      known.set(group, kept);
    }
    return kept;
  };
}
// What is shown of a configuration.

/** An element with attributes and children; texts become text, never markup. */
function made(name, attributes, ...children) {
  const element = document.createElement(name);
  for (const [key, value] of Object.entries(attributes)) element.setAttribute(key, value);
  element.append(...children);
  return element;
}

function byLine(items) {
  const lines = new Map();
  for (const item of items) {
    if (!lines.has(item.line)) lines.set(item.line, []);
    lines.get(item.line).push(item);
  }
  return lines;
}

/** What the page tells, taken apart. */
function reportOf(textOfElement) {
  const bytes = (id) => bytesOf(textOfElement(id));
  const file = bytes(\"file\");
  const ascii = (id) => decoded(bytes(id));
  const lines = linesOf(file);
  // a byte is a character here, so that places are as they are counted
  const grouped = groupedLines(lines.map((line) => Array.from(line, (byte) => String.fromCharCode(byte)).join(\"\")).join(\"\\n\"));
  const alarms = alarmsOf(ascii(\"alarms\"));
  return {
    model: modelOf(ascii(\"model\")),
    lines: lines.map((line, at) => ({ bytes: line, ...grouped[at] })),
    alarms,
    alarmsAt: byLine(alarms),
    knownAt: byLine(invariantsOf(ascii(\"report\"))),
  };
}

/** What holds in a configuration; `isValid` false where it is none. */
function stateOf(report, values) {
  const faults = faultsOf(report.model, values);
  const isValid = faults.outside.length === 0 && faults.broken.length === 0;
  const names = environmentOf(report.model.features, new Map([...values].map(([name, value]) => [name, value ?? 0n])));
  const isKept = keeping(names);
  const meets = (item) => isValid && conditionOf(item.region)(names);
  return {
    faults,
    isValid,
    isKept: (line) => isKept(line.group),
    lit: new Set(report.alarms.filter(meets)),
    known: (at) => (report.knownAt.get(at) ?? []).filter(meets),
  };
}

/** Whether all that stands on a line is not reached. */
function isUnreachable(known) {
  return known.length > 0 && known.every(({ leaf }) => leaf === \"unreachable\");
}

/** The values to begin with: the first example, or the least of each range. */
function firstValues(report) {
  if (report.alarms.length > 0) return valuesOf(report.alarms[0].example);
  return new Map(report.model.features.map(({ name, min }) => [name, min]));
}

const counted = (count, word) => `${count} ${word}${count === 1 ? \"\" : \"s\"}`;

/** The sentence at the head. */
function headline(report, state) {
  const { outside, broken } = state.faults;
  if (outside.length > 0) return `No configuration: ${outside.join(\", \")} out of range.`;
  if (broken.length > 0) {
    const numbers = broken.map((at) => at + 1).join(\", \");
    return `No valid configuration: constraint ${numbers} ${broken.length === 1 ? \"is\" : \"are\"} false. Alarms are told of valid configurations alone.`;
  }
  const lines = counted(report.alarms.length, \"alarm line\");
  return `This configuration has ${counted(state.lit.size, \"alarm\")}, of ${lines} of the whole family.`;
}

/** The view of a report: the elements that change, and the values that are chosen. */
class View {
  constructor(report) {
    this.report = report;
    this.values = firstValues(report);
    this.inputs = new Map();
    this.opened = new Set();
    this.alarmElements = [];
    this.lineElements = [];
    this.find = (id) => document.getElementById(id);
  }

  build() {
    this.buildPanel();
    this.buildList();
    this.buildListing();
    this.find(\"all-known\").addEventListener(\"change\", () => this.showKnown());
    this.show();
    this.find(\"view\").hidden = false;
    for (const details of document.querySelectorAll(\"#texts details\")) details.open = false;
  }

  buildPanel() {
    const rows = this.report.model.features.map((feature) => this.featureRow(feature));
    this.find(\"features\").append(...rows);
    this.find(\"features\").addEventListener(\"submit\", (event) => event.preventDefault());
    this.constraintElements = this.report.model.constraints.map((text) => {
      const state = made(\"span\", {});
      this.find(\"constraints\").append(made(\"li\", {}, made(\"code\", {}, text), \" \", state));
      return state;
    });
  }

  featureRow({ name, isSwitch, min, max }) {
    const id = `feature-${name}`;
    const input = isSwitch ? made(\"input\", { type: \"checkbox\", id }) : made(\"input\", { type: \"number\", id, min, max, step: 1, required: \"\" });
    input.addEventListener(\"input\", () => {
      this.values.set(name, isSwitch ? BigInt(input.checked) : wholeOf(input.value));
      this.show();
    });
    this.inputs.set(name, input);
    const label = made(\"label\", { for: id }, name);
    if (isSwitch) return made(\"div\", {}, input, label);
    const range = made(\"span\", { class: \"range\", id: `${id}-range` }, `${min} to ${max}`);
    input.setAttribute(\"aria-describedby\", range.id);
    return made(\"div\", {}, label, input, range);
  }

  /** A button that chooses the example of an alarm, with what the alarm says. */
  alarmElement(alarm, name, link) {
    const button = made(\"button\", { type: \"button\", \"aria-label\": `choose the example of ${alarm.kind} at ${alarm.line}:${alarm.column}` }, \"choose\");
    button.addEventListener(\"click\", () => this.choose(valuesOf(alarm.example)));
    const state = made(\"span\", { class: \"state\" });
    const said = made(\"code\", {}, `${alarm.kind} if ${alarm.region}; example ${alarm.example}`);
    const element = made(name, { class: \"alarm\" }, ...link, button, \" \", said, \" \", state);
    this.alarmElements.push({ alarm, element, state });
    return element;
  }

  buildList() {
    for (const alarm of this.report.alarms) {
      const link = made(\"a\", { href: `#line-${alarm.line}` }, `${alarm.line}:${alarm.column}`);
      this.find(\"list\").append(this.alarmElement(alarm, \"li\", [link, \" \"]));
    }
  }

  buildListing() {
    const listing = this.find(\"listing\");
    const elements = this.report.lines.map((line, at) => this.lineElement(line, at + 1));
    listing.append(...elements);
    const first = listing.querySelector(\"button.number\");
    if (first) first.tabIndex = 0;
    listing.addEventListener(\"keydown\", (event) => this.moveBy(event));
  }

  lineElement(line, at) {
    const isKnown = this.report.knownAt.has(at);
    const number = isKnown
      ? made(\"button\", { type: \"button\", class: \"number\", tabindex: \"-1\", \"aria-expanded\": \"false\", \"aria-label\": `line ${at}: what is known there` }, String(at))
      : made(\"span\", { class: \"number\" }, String(at));
    const mark = made(\"span\", { class: \"mark\" });
    const row = made(\"div\", { class: \"row\" }, number, mark, made(\"code\", {}, decoded(line.bytes).replace(/\\r$/, \"\")));
    const element = made(\"div\", { class: `line depth-${Math.min(line.depth, 4)}${line.isDirective ? \" directive\" : \"\"}`, id: `line-${at}` }, row);
    if (isKnown) number.addEventListener(\"click\", () => this.toggle(at));
    for (const alarm of this.report.alarmsAt.get(at) ?? []) {
      element.append(this.alarmElement(alarm, \"div\", []));
      element.lastChild.classList.add(\"note\");
    }
    this.lineElements.push({ line, at, element, row, number, mark, known: null });
    return element;
  }

  /** The keys that go from the number of one line to another. */
  moveBy(event) {
    if (!event.target.matches(\"button.number\")) return;
    const numbers = [...this.find(\"listing\").querySelectorAll(\"button.number\")];
    const from = numbers.indexOf(event.target);
    const to = { ArrowDown: from + 1, ArrowUp: from - 1, Home: 0, End: numbers.length - 1 }[event.key];
    if (to === undefined || numbers[to] === undefined) return;
    event.preventDefault();
    event.target.tabIndex = -1;
    numbers[to].tabIndex = 0;
    numbers[to].focus();
  }

  toggle(at) {
    if (!this.opened.delete(at)) this.opened.add(at);
    this.showKnown();
  }

  choose(values) {
    this.values = values;
    this.show();
  }

  /** Shows all that depends on the configuration. */
  show() {
    this.state = stateOf(this.report, this.values);
    this.find(\"count\").textContent = headline(this.report, this.state);
    this.showPanel();
    for (const { alarm, element, state } of this.alarmElements) {
      const isLit = this.state.lit.has(alarm);
      element.classList.toggle(\"lit\", isLit);
      state.textContent = isLit ? \"in this configuration\" : \"not in this one\";
    }
    for (const parts of this.lineElements) this.showLine(parts);
    this.showKnown();
  }

  showPanel() {
    for (const [name, input] of this.inputs) {
      const value = this.values.get(name);
      if (input.type === \"checkbox\") input.checked = value === 1n;
      else if (wholeOf(input.value) !== value) input.value = value ?? \"\";
    }
    this.find(\"validity\").textContent = this.state.isValid ? \"The configuration is valid.\" : \"The configuration is not valid.\";
    this.find(\"validity\").classList.toggle(\"broken\", !this.state.isValid);
    const { outside, broken } = this.state.faults;
    this.constraintElements.forEach((element, at) => {
      const isBroken = broken.includes(at);
      element.textContent = outside.length > 0 ? \"\" : isBroken ? \"false\" : \"true\";
      element.classList.toggle(\"broken\", isBroken);
    });
  }

  showLine({ line, at, element, mark }) {
    const alarms = this.report.alarmsAt.get(at) ?? [];
    const isKept = this.state.isKept(line);
    const hasAlarm = alarms.some((alarm) => this.state.lit.has(alarm));
    const isDead = isKept && isUnreachable(this.state.known(at));
    element.classList.toggle(\"left-out\", !isKept);
    element.classList.toggle(\"has-alarm\", hasAlarm);
    element.classList.toggle(\"unreachable\", isDead);
    const [sign, said] = hasAlarm ? [\"!\", \"alarm\"] : !isKept ? [\"-\", \"left out\"] : isDead ? [\"0\", \"unreachable\"] : alarms.length > 0 ? [\"?\", \"\"] : [\"\", \"\"];
    if (mark.dataset.sign === sign) return;
    mark.dataset.sign = sign;
    mark.title = said;
    mark.replaceChildren(sign, ...(said ? [made(\"span\", { class: \"hidden-text\" }, ` ${said} `)] : []));
  }

  /** Shows what is known at the lines that are opened, or at all. */
  showKnown() {
    const isAll = this.find(\"all-known\").checked;
    for (const parts of this.lineElements) {
      if (!this.report.knownAt.has(parts.at)) continue;
      const isOpen = isAll || this.opened.has(parts.at);
      parts.number.setAttribute(\"aria-expanded\", String(isOpen));
      parts.known?.remove();
      parts.known = isOpen ? this.knownElement(parts) : null;
      if (parts.known) parts.row.after(parts.known);
    }
  }

  knownElement({ line, at }) {
    const known = this.state.isValid && this.state.isKept(line) ? this.state.known(at) : [];
    const said = known.map(({ column, leaf }) => made(\"div\", {}, `${at}:${column}: ${leaf}`));
    const none = this.state.isValid ? \"left out in this configuration\" : \"no valid configuration\";
    return made(\"div\", { class: \"known\" }, ...(said.length > 0 ? said : [none]));
  }
}

/** A whole number, or nothing. */
function wholeOf(text) {
  return /^-?[0-9]+$/.test(text) ? BigInt(text) : undefined;
}

if (typeof document === \"undefined\") {
  module.exports = { bytesOf, reportOf, stateOf, valuesOf, conditionOf, environmentOf, faultsOf, isUnreachable, headline, firstValues };
} else {
  try {
    new View(reportOf((id) => document.getElementById(id).textContent)).build();
  } catch (fault) {
    document.getElementById(\"view\").classList.add(\"failed\");
    throw fault;
  }
}
";

/// What stands behind the script.
pub const END: &str = "\
</script>
</body>
</html>
";
