//! What each code means, and each status: written by `tools/guide-texts` from docs/CODES.md and docs/GUIDE.md.
#![tactic(auto)]

/// The codes of files, each with its text.
pub const FILE_CODES: [(&str, &str); 23] = [
    (
        "F20",
        "F20: A file is refused.\nCause: more than 1,048,576 bytes; at 1:1.\nWhat to do: cut the file.\n",
    ),
    (
        "F1",
        "F1: A file is refused.\nCause: `/*` without its end; at `/*`.\nWhat to do: end the comment.\n",
    ),
    (
        "F2",
        "F2: A file is refused.\nCause: a backslash, or the trigraph `??/` that means one, directly before a\nnewline, or before a carriage return and a newline; at it. Also in a comment.\nWhat to do: join the two lines; in a comment leave it out.\n",
    ),
    (
        "F3",
        "F3: A file is refused.\nCause: a comment with a newline whose first or last line is a directive line; at\nits first byte.\nWhat to do: put the directive on a line of its own.\n",
    ),
    (
        "F4",
        "F4: A file is refused.\nCause: a directive that is none of `if`, `ifdef`, `ifndef`, `elif`, `else`,\n`endif`, no `define` of a name and one number (`3`, `-3`, `(3)`, `(-3)`), and no\n`include` of exactly `<assert.h>` (under `--includes=skip`, of anything); or\ntext behind `else` or `endif`; or a `define` of a reserved word, of `defined` or\nof `NDEBUG`; at `#`.\nWhat to do: write the number; leave out other includes, or take\n`--includes=skip`.\n",
    ),
    (
        "F21",
        "F21: A file is refused.\nCause: under `plain`, a group directive; at `#`.\nWhat to do: use `analyse` with a model, or write out the text of one variant.\n",
    ),
    (
        "F10",
        "F10: A file is refused.\nCause: a byte that begins no token; at it.\nWhat to do: leave out strings, `[`, `?`, `:`, a lone `&`, `.`, and bytes that\nare not ASCII.\n",
    ),
    (
        "F11",
        "F11: A file is refused.\nCause: a number that is past 2147483647, has a suffix or is none of C (`08`,\n`0x1E+1`), or a quote without exactly one character or escape of ASCII and a\nsecond quote (`''`, `'ab'`); at its first byte.\nWhat to do: write it without a suffix; all bits are `-1`, and the least `int` is\n`-2147483647 - 1`.\n",
    ),
    (
        "F12",
        "F12: A file is refused.\nCause: the first token, or the end, at which no file goes on, whichever names it\nhas; at it.\nWhat to do: bring the code into the form of docs/LANGUAGE.md; each reserved word\nbut those of the grammar is such a token.\n",
    ),
    (
        "F16",
        "F16: A file is refused.\nCause: an `if`, a `while`, a `do`, a `for` or a block with 64 of these around\nit, at its first token (the body of `main` is no block); or the 65th operator or\nopening parenthesis of an expression, at it. The parentheses of `if`, `while`,\n`do`, `for`, `assert` and `input` do not count. Or: an `if`, a `while`, a `do`,\na `for`, a block, an `#if` or an `#elif` with 64 of these around it; an `#elif`\nhas its `#if` and the earlier `#elif`s around it; at its first token or `#`.\nWhat to do: cut the expression by a variable of its own. Or: cut the section in\ntwo.\n",
    ),
    (
        "F13",
        "F13: A file is refused.\nCause: a name that is used where no declaration of it stands before, in its own\ndeclarator, or behind the block of its declaration; at it. Or: a name that some\nvalid configuration keeps where no declaration of it is in scope; the example is\nthe least such configuration.\nWhat to do: declare it above, in this block or around it. Or: declare it for all\nof them, or use it within the group.\n",
    ),
    (
        "F14",
        "F14: A file is refused.\nCause: the second declaration of a name where one of it is in scope, or of a\nname of `main` where one of the two is `static`; at the name. Or: a declaration\nthat some valid configuration keeps where an earlier one is in scope; with the\nleast such configuration.\nWhat to do: keep one. Or: keep one for each configuration.\n",
    ),
    (
        "F17",
        "F17: A file is refused.\nCause: the first declaration of the 17th variable before `main`, or of the 17th\nin it; at its name.\nWhat to do: cut the program into parts.\n",
    ),
    (
        "F23",
        "F23: A file is refused.\nCause: a constant that is assigned, raised, lowered or read from input; at its\nname. Or: a name that some valid configuration keeps changed, where a\ndeclaration of it as a constant is in scope; or a feature that some valid\nconfiguration keeps changed; no configuration is told.\nWhat to do: declare it without `const`, `enum` or `#define`, or leave out the\nstatement. Or: the statement within a group in which it is a variable; of a\nfeature, a variable of its own.\n",
    ),
    (
        "F24",
        "F24: A file is refused.\nCause: the first declaration of the 17th constant before `main`; at its name.\nOr: the first use in code of a number feature that is the 17th of the constants\nand of the features that stand in code; at it.\nWhat to do: write the number where it is used, or cut the program into parts.\nOr: write the numbers of constants where they are used.\n",
    ),
    (
        "F5",
        "F5: A file is refused.\nCause: `#elif`, `#else` or `#endif` outside every section; at `#`.\nWhat to do: end each section once.\n",
    ),
    (
        "F6",
        "F6: A file is refused.\nCause: a section without its end; at the `#` that opens it.\nWhat to do: end it.\n",
    ),
    (
        "F7",
        "F7: A file is refused.\nCause: `#elif` or `#else` behind the section's `#else`; at `#`.\nWhat to do: put it before.\n",
    ),
    (
        "F8",
        "F8: A file is refused.\nCause: a condition with a fault, whose C code is told too; `#ifdef` and\n`#ifndef` without exactly one identifier, or with `defined`, are C1; at `#`.\nWhat to do: what its C code says.\n",
    ),
    (
        "F9",
        "F9: A file is refused.\nCause: the condition with which the different tests of the model and the file\npass 64; at `#`.\nWhat to do: fewer different tests.\n",
    ),
    (
        "F19",
        "F19: A file is refused.\nCause: as F12, where it is a group directive, or an `else` directly behind one;\nat it.\nWhat to do: groups around whole statements.\n",
    ),
    (
        "F15",
        "F15: A file is refused.\nCause: the name of a switch in code, or a feature's name that is declared; at\nit.\nWhat to do: groups in place of `if`: `#ifdef FAST`; another name.\n",
    ),
    (
        "F22",
        "F22: A file is refused.\nCause: the first use in code of a number feature whose tests, one for each value\nabove its least, are more than 256 together with those of the features that\nstand in code before it; at it.\nWhat to do: a narrower range in the model; or a variable that groups set, as\n`#if SIDE >= 8`.\n",
    ),
];

/// The other codes and the statuses, each with its text.
pub const OTHER_CODES: [(&str, &str); 36] = [
    (
        "M8",
        "M8: A model is refused.\nCause: more than 65,536 bytes.\nWhat to do: a smaller model.\n",
    ),
    (
        "M1",
        "M1: A model is refused.\nCause: the bytes are no JSON, or nested too deep.\nWhat to do: mend the JSON.\n",
    ),
    (
        "M2",
        "M2: A model is refused.\nCause: the value has not the shape of a model, or another member.\nWhat to do: an object with `features`, and perhaps `constraints`; of a feature\nboth of `min` and `max`, as whole numbers, or none.\n",
    ),
    (
        "M6",
        "M6: A model is refused.\nCause: more than 32 features or more than 256 constraints.\nWhat to do: a part of the model.\n",
    ),
    (
        "M3",
        "M3: A model is refused.\nCause: the first feature whose name is no identifier, begins with two\nunderscores or is reserved: a keyword of C, `main`, `assert`, `input`,\n`defined`, `NDEBUG`.\nWhat to do: another name.\n",
    ),
    (
        "M4",
        "M4: A model is refused.\nCause: the first feature whose name an earlier one has.\nWhat to do: one of them.\n",
    ),
    (
        "M5",
        "M5: A model is refused.\nCause: the first feature with `min` above `max`, or an end of more than 2^20 in\nsize.\nWhat to do: a range that is not empty, within -1048576 to 1048576.\n",
    ),
    (
        "M7",
        "M7: A model is refused.\nCause: the first constraint that is refused as a condition, with its C code.\nWhat to do: what its C code says.\n",
    ),
    (
        "M10",
        "M10: A model is refused.\nCause: the constraints together have more than 64 distinct atoms.\nWhat to do: fewer different tests.\n",
    ),
    (
        "M9",
        "M9: A model is refused.\nCause: no configuration is valid.\nWhat to do: look for constraints that contradict one another.\n",
    ),
    (
        "K1",
        "K1: The settings are refused.\nCause: no feature has the name.\nWhat to do: a name of the model.\n",
    ),
    (
        "K3",
        "K3: The settings are refused.\nCause: an earlier word names it.\nWhat to do: one of them.\n",
    ),
    (
        "K4",
        "K4: The settings are refused.\nCause: the value is no whole number without leading zeros, or not in the range\nof the feature.\nWhat to do: a value of the range.\n",
    ),
    (
        "K2",
        "K2: The settings are refused.\nCause: the first number feature that no word names.\nWhat to do: give it a value.\n",
    ),
    (
        "K5",
        "K5: The settings are refused.\nCause: a constraint is false.\nWhat to do: a valid configuration.\n",
    ),
    (
        "E1",
        "E1: A certificate is refused.\nCause: more than 16,777,216 bytes.\nWhat to do: a shorter certificate: fewer regions.\n",
    ),
    (
        "E2",
        "E2: A certificate is refused.\nCause: the first line is neither `famlint certificate 1 stop` nor `famlint\ncertificate 1 wrap`.\nWhat to do: one of these two.\n",
    ),
    (
        "E3",
        "E3: A certificate is refused.\nCause: of the lines with a fault the first has neither the form of a loop nor\nthat of an alarm, or no newline; with its number, from 1.\nWhat to do: `loop LINE:COLUMN if REGION: LEAF`, or `alarm LINE:COLUMN: KIND if\nREGION`.\n",
    ),
    (
        "E4",
        "E4: A certificate is refused.\nCause: of the lines with a fault the first has a region with a piece that is no\nliteral of the tests of the model and the file, and no value `T == k` of which\n`T >= k` and `T <= k` both are.\nWhat to do: the literals as `analyse` prints them for this model and file.\n",
    ),
    (
        "C1",
        "C1: A condition is refused, of a model (M7) or of a file (F8).\nCause: a byte begins no token, or a run of digits and letters is no integer\nconstant of C, or has a suffix with `u` or `U`. Or: the tokens are no\nexpression.\nWhat to do: numbers without a suffix. Or: an expression; `- -SIZE` with a space.\n",
    ),
    (
        "C5",
        "C5: A condition is refused, of a model (M7) or of a file (F8).\nCause: more than 64 tokens are operators or opening parentheses, those of\n`defined` aside.\nWhat to do: cut it into several constraints.\n",
    ),
    (
        "C4",
        "C4: A condition is refused, of a model (M7) or of a file (F8).\nCause: a name begins with two underscores.\nWhat to do: a feature of the model.\n",
    ),
    (
        "C6",
        "C6: A condition is refused, of a model (M7) or of a file (F8).\nCause: under `--unknown=refuse`, a name that is no feature of the model, and in\na file that no `#define` of it has, under `defined`, `#ifdef` and `#ifndef` too.\nWhat to do: the feature's name as the model has it; where the name is meant to\nbe unknown, `--unknown=zero`.\n",
    ),
    (
        "C7",
        "C7: A condition is refused, of a model (M7) or of a file (F8).\nCause: a name for which a `#define` stands above in the file, in whatever group;\nunder `defined`, `#ifdef` and `#ifndef` too.\nWhat to do: write the number.\n",
    ),
    (
        "C2",
        "C2: A condition is refused, of a model (M7) or of a file (F8).\nCause: a truth value is used as a number, or both sides of a product name a\nfeature.\nWhat to do: products with a number, and `&&`, `||` between truth values.\n",
    ),
    (
        "C3",
        "C3: A condition is refused, of a model (M7) or of a file (F8).\nCause: a literal, or a number of a linear form on the way, passes 2^31 in size.\nWhat to do: smaller numbers.\n",
    ),
    (
        "0",
        "Status 0: done, and no alarm is printed; `project`, `run`, `features`, `help`,\n`explain` and `--version` end with it, `advise` where it has advice, and `check`\nwhere the certificate holds.\nOn the error stream: nothing.\nWhat to do: nothing: under `plain` and `variant` no run of the program stops in\nthe chosen mode, under `analyse`, `invariants` and `page` no run of any valid\nconfiguration's variant, and under `advise` no run of the variant of the printed\nconfiguration.\n",
    ),
    (
        "1",
        "Status 1: done, and an alarm is printed; under `advise`, each valid\nconfiguration has an alarm; under `check`, the certificate does not hold.\nOn the error stream: nothing.\nWhat to do: look at the place; where no run stops there, tell more by an `if`,\nor try `--domain octagon`, `--widening=thresholds`, `--delay` and `--narrow`.\n",
    ),
    (
        "2",
        "Status 2: the words are refused: no command, another number of words, an option\nthat is not one of the command, that is given twice or without its value, or a\nvalue that is not spelled or in range.\nOn the error stream: the usage line.\nWhat to do: see the commands and options, by `famlint help`.\n",
    ),
    (
        "3",
        "Status 3: the model is refused.\nOn the error stream: `model: M1`; with the number of a feature `model: M3 at\nfeature 2`, or of a constraint `model: M7 C2 at constraint 1`.\nWhat to do: see its M code, in the codes of models or by `famlint explain`.\n",
    ),
    (
        "4",
        "Status 4: the file is refused.\nOn the error stream: `file: F12 at 4:5`, the code and the place; `file: F8 C2 at\n3:1` with the code of a condition; `file: F13 at 5:1; example A=0` with a\nconfiguration that shows it.\nWhat to do: see its F code, in the codes of a file or by `famlint explain`.\n",
    ),
    (
        "5",
        "Status 5: the settings are refused.\nOn the error stream: `configuration: K1 at word 1` with the number of a word,\n`configuration: K2 SIZE` with the name of a feature, `configuration: K5`.\nWhat to do: see its K code, in the codes of settings or by `famlint explain`.\n",
    ),
    (
        "6",
        "Status 6: a path can't be loaded: it is not there, may not be read, or is a\nfolder.\nOn the error stream: `read fault: model`, `read fault: file` or `read fault:\ncertificate`.\nWhat to do: look at the path; the path is taken as it is.\n",
    ),
    (
        "7",
        "Status 7: a write to the output failed; a prefix of the report was written.\nOn the error stream: `write fault`.\nWhat to do: look at what reads the output, or at the disk.\n",
    ),
    (
        "8",
        "Status 8: want of memory.\nOn the error stream: `want of memory`.\nWhat to do: more memory, or a smaller file.\n",
    ),
    (
        "9",
        "Status 9: the certificate is refused.\nOn the error stream: `certificate: E2`, or with the number of a line\n`certificate: E3 at line 5`.\nWhat to do: see its E code, in the codes of certificates or by `famlint\nexplain`.\n",
    ),
];
