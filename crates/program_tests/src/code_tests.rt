//! Codes that no example file gives: those of `plain` under `analyse`, and the largest model within the limit of tests. Each code has a
//! file in `examples/refused`, but for those of large inputs, which stand with the tests of their limits.

use fam_outer::NoMemory;
use std::alloc::Global;
use std::test::Fail;
use test_runs::comparing::compares;

/// A switch, and a number that is at least 4 where the switch is on.
const MODEL: &str =
    "{\"features\": [{\"name\": \"FAST\"}, {\"name\": \"SIZE\", \"min\": 1, \"max\": 16}], \"constraints\": [\"!FAST || SIZE >= 4\"]}";

/// A model whose constraints have as many tests of `N`, and one of `FAST`.
fn with_tests(alloc: Global, count: u32) -> Result<String, NoMemory> {
    let mut text = String::from_str(
        alloc,
        "{\"features\": [{\"name\": \"FAST\"}, {\"name\": \"N\", \"min\": 0, \"max\": 100}], \"constraints\": [",
    )?;
    for i in 1..=count {
        if i > 1 {
            text.push_str(", ")?;
        }
        write!(text, "\"FAST || N >= {i}\"")?;
    }
    text.push_str("]}")?;
    Ok(text)
}

/// One more is refused, as in the example `M10.json`.
#[test]
fn a_model_has_64_tests(rt: HostRuntime) -> Result<(), Fail> {
    let alloc = rt.alloc();
    let model = with_tests(alloc, 63)?;
    let contents = [
        ("m", model.as_bytes()),
        ("f", b"int main(void) { }\n".as_slice()),
    ];
    Ok(compares(alloc, "analyse m f", &contents, (0, b"alarms: 0\n", b""))?)
}

/// Files without groups, which `plain` refuses with the same codes.
#[test]
fn codes_of_files_without_groups(rt: HostRuntime) -> Result<(), Fail> {
    let rows = [
        (
            "int x;\nint main(void) {\nx = 1; /* set it\n}\n",
            "file: F1 at 3:8\n",
        ),
        (
            "int x;\nint main(void) {\nx = 1 + \\\n2;\n}\n",
            "file: F2 at 3:9\n",
        ),
        (
            "/* one\n*/ #include <assert.h>\nint main(void) { }\n",
            "file: F3 at 1:1\n",
        ),
        (
            "#define LIMIT (99 + 1)\nint main(void) { }\n",
            "file: F4 at 1:1\n",
        ),
        (
            "int main(void) {\nassert(\"level\" == 0);\n}\n",
            "file: F10 at 2:8\n",
        ),
        (
            "int mask;\nint main(void) {\nmask = 0xFFFFFFFF;\n}\n",
            "file: F11 at 3:8\n",
        ),
        ("int main(void) {\ngoto end;\n}\n", "file: F12 at 2:1\n"),
        ("int main(void) {\nx = 1;\n}\n", "file: F13 at 2:1\n"),
        (
            "int x;\nint x;\nint main(void) { }\n",
            "file: F14 at 2:5; example FAST=0 SIZE=1\n",
        ),
        (
            "int a, b, c, d, e, f, g, h, i, j, k, l, m, n, o, p, q;\nint main(void) { }\n",
            "file: F17 at 1:53\n",
        ),
        (
            "enum { A, B, C, D, E, F, G, H, I, J, K, L, M, N, O, P, Q };\nint main(void) { }\n",
            "file: F24 at 1:56\n",
        ),
    ];
    for (file, told) in rows {
        let contents = [("m", MODEL.as_bytes()), ("f", file.as_bytes())];
        compares(
            rt.alloc(),
            "analyse m f",
            &contents,
            (4, b"", told.as_bytes()),
        )?;
    }
    Ok(())
}
