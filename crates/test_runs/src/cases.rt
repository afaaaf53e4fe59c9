//! The models and files of the tests.

use crate::running::{Ran, ran_with, text_files};
use fam_outer::NoMemory;
use std::alloc::Global;

/// The line where the words are refused.
pub const USAGE: &str =
    "usage: famlint plain FILE, project MODEL FILE SETTINGS, variant MODEL FILE SETTINGS, run MODEL FILE SETTINGS, analyse MODEL FILE, invariants MODEL FILE, page MODEL FILE, generate NUMBER, certify MODEL FILE, check MODEL FILE CERTIFICATE, advise MODEL FILE SETTINGS, features MODEL\n";

/// The models and files of the tests, each under its path.
pub const FILES: [(&str, &str); 40] = [
    ("m0", "{\"features\":[]}\n"),
    ("ma", "{\"features\":[{\"name\":\"A\"}]}\n"),
    (
        "mc",
        "{\"features\":[{\"name\":\"A\"},{\"name\":\"N\",\"min\":0,\"max\":7}],\"constraints\":[\"A || N >= 3\"]}\n",
    ),
    (
        "mand",
        "{\"features\":[{\"name\":\"A\"},{\"name\":\"N\",\"min\":0,\"max\":7}],\"constraints\":[\"A && N <= 2\"]}\n",
    ),
    ("void", "{\"features\":[],\"constraints\":[\"0\"]}\n"),
    ("m1", "{\n"),
    (
        "m3",
        "{\"features\":[{\"name\":\"A\"},{\"name\":\"int\"}]}\n",
    ),
    ("m7", "{\"features\":[],\"constraints\":[\"1\",\"1 +\"]}\n"),
    ("f1", "int main(void) { }\n"),
    ("f41", "int main(void) { assert(0); }\n"),
    ("f2", "int x;\nint main(void) {\nx = 1 / x;\n}\n"),
    (
        "f6",
        "int x;\nint main(void) {\nwhile (x < 10) x++;\nassert(x == 10);\n}\n",
    ),
    (
        "f8",
        "int x;\nint i;\nint main(void) {\nwhile (i < 10) {\ni++;\n#ifdef A\nx = x;\n#else\nx = x + 1;\n#endif\n}\nassert(x == 0);\n}\n",
    ),
    (
        "f10",
        "int main(void) {\n#ifndef A\nassert(0);\n#endif\n}\n",
    ),
    (
        "f11",
        "int x;\nint y;\nint main(void) {\nx = input();\ny = input();\nif (x >= -1000 && x <= 1000 && y >= -1000 && y <= 1000 && x + y <= 1 && x - y <= 0)\nassert(x <= 0);\n}\n",
    ),
    (
        "f23",
        "int x; // one\nint main(void) {\n#ifdef A\nx = 1;\n#else\nx = 2;\n#endif\n}\n",
    ),
    (
        "f30",
        "#ifdef A\nint x;\n#endif\nint main(void) {\nx = 1;\n}\n",
    ),
    ("f33", "#if A\nint main(void) { }\n#endif\n"),
    (
        "f35",
        "int x;\nint main(void) {\nx = 2147483647;\nx = x + 1;\nassert(x < 0);\n}\n",
    ),
    (
        "queue.json",
        "{\"features\":[{\"name\":\"LOG\"},{\"name\":\"FAST\"},{\"name\":\"RETRY\"},{\"name\":\"SAFE\"},{\"name\":\"BULK\"},\n{\"name\":\"SIZE\",\"min\":1,\"max\":16},{\"name\":\"LIMIT\",\"min\":0,\"max\":5}],\n\"constraints\":[\"!FAST || !SAFE\",\"LIMIT <= SIZE\"]}\n",
    ),
    (
        "queue.c",
        "#include <assert.h>\n/* a small queue, in many versions */\nextern int input(void);\nint count;\nint tries = 3;\nint logged;\nint load;\n\nint main(void)\n{\n    load = input();\n#if defined(SAFE)\n    if (load < 0 || load > 100)\n        load = 0;\n#elif SIZE >= 8\n    if (load > 1000)\n        load = 1000;\n#endif\n    while (count < 10) {\n        count++;\n#ifdef LOG\n        logged++;\n#endif\n    }\n#ifdef BULK\n    load = load * 2;\n#endif\n#if RETRY && LIMIT > 0\n    while (tries > 0)\n        tries--;\n    assert(tries == 0);\n#endif\n#ifdef FAST\n    count = 100 / tries;\n#else\n    count = 100 / (tries + 1);\n#endif\n    assert(count >= 0);\n    return 0;\n}\n",
    ),
    (
        "mn",
        "{\"features\":[{\"name\":\"N\",\"min\":0,\"max\":7}]}\n",
    ),
    (
        "mnot",
        "{\"features\":[{\"name\":\"A\"}],\"constraints\":[\"!A\"]}\n",
    ),
    (
        "f7",
        "int x;\nint y;\nint main(void) {\ny = x;\nwhile (x < 100) {\nx++;\ny++;\n}\nassert(x == y);\n}\n",
    ),
    (
        "f9",
        "int main(void) {\n#if N >= 3\n#if N >= 5\nassert(0);\n#endif\n#endif\n}\n",
    ),
    ("f12", "#if A /* note\n*/\n#endif\nint main(void) { }\n"),
    ("f13", "int main(void) {\n#if A\n"),
    ("f14", "int main(void) {\n#if FOO\nassert(0);\n#endif\n}\n"),
    (
        "f14_reserved",
        "int main(void) {\n#if __FOO\nassert(0);\n#endif\n}\n",
    ),
    (
        "f15",
        "int x;\nint y;\nint main(void) {\nif (x) y = 1;\n#if A\nelse y = 2;\n#endif\n}\n",
    ),
    (
        "f21",
        "int main(void) {\n#if 2 * N >= 5\nassert(0);\n#endif\n}\n",
    ),
    (
        "f21_negative",
        "int main(void) {\n#if 3 - N > 0\nassert(0);\n#endif\n}\n",
    ),
    (
        "f21_product",
        "int main(void) {\n#if N * N > 1\nassert(0);\n#endif\n}\n",
    ),
    (
        "f21_large",
        "int main(void) {\n#if N > 2147483649\nassert(0);\n#endif\n}\n",
    ),
    (
        "f29",
        "#ifdef A\nint x = 1;\n#else\nint x;\n#endif\nint main(void) {\nassert(x == 1);\n}\n",
    ),
    (
        "f31",
        "#ifdef A\nint x;\n#endif\nint main(void) {\n#ifdef A\nx = 1;\n#endif\n}\n",
    ),
    (
        "f32",
        "int x;\n#ifdef A\nint x;\n#endif\nint main(void) { }\n",
    ),
    (
        "f38",
        "int x;\nint main(void) {\nwhile (x < 10) {\n#ifdef A\nx += 2;\n#else\nx += 3;\n#endif\n}\nassert(x == 10);\n}\n",
    ),
    (
        "both_ways",
        "int x;\nint y = 10;\nint main(void) {\nwhile (x < 10) {\nx++;\ny--;\n}\nassert(y == 0);\n}\n",
    ),
    (
        "f42",
        "int x;\nint y;\nint main(void) {\nwhile (x < 9) {\nx += 2;\ny += 2;\n}\nassert(y == 10);\n}\n",
    ),
];

/// The content of a path.
pub fn content_of(path: &str) -> &'static [u8] {
    for (known, content) in FILES {
        if known == path {
            return content.as_bytes();
        }
    }
    b""
}

/// Runs the words of a line over the models and files of the tests, of which the loads with these numbers fail.
pub fn ran_over_cases(alloc: Global, line: &str, failing: Vec<u64>) -> Result<Ran, NoMemory> {
    let mut files = text_files(alloc, &FILES, failing)?;
    ran_with(alloc, line, &mut files)
}
