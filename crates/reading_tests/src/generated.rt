//! The texts of small families by hand, the model, and what families are read as.

use family_generator::{generated_family, generated_model, generated_text};
use std::test::Fail;

#[test]
fn texts_have_the_blocks_of_their_number(rt: HostRuntime) -> Result<(), Fail> {
    let alloc = rt.alloc();
    let rows: [(u32, &str); 3] = [
        (
            1,
            "int a;\nint b;\nint main(void) {\n#ifdef F1\na = input();\n#endif\n}\n",
        ),
        (
            2,
            "int a;\nint b;\nint main(void) {\n#ifdef F2\na = input();\n#endif\n#if N >= 2\nwhile (b < 11) b++;\n#else\nb = 0;\n\
             #endif\n}\n",
        ),
        (
            3,
            "int a;\nint b;\nint main(void) {\n#ifdef F3\na = input();\n#endif\n#if N >= 2\nwhile (b < 11) b++;\n#else\nb = 0;\n\
             #endif\nif (a > 0) b = b + 1; else b = 0;\nassert(b >= 0);\n}\n",
        ),
    ];
    for (number, expected) in rows {
        let text = generated_text(alloc, number).map_err(|_| "memory")?;
        assert_eq!(rt; text.bytes(), expected.as_bytes());
    }
    Ok(())
}

/// Block 52 counts to 12 from `N` at least 8, and block 51 is an input under `F5`, as 5 * 51 + 54 is 309.
#[test]
fn later_blocks_take_remainders_of_their_own(rt: HostRuntime) -> Result<(), Fail> {
    let alloc = rt.alloc();
    let text = generated_text(alloc, 54).map_err(|_| "memory")?;
    let end =
        "#ifdef F5\na = input();\n#endif\n#if N >= 8\nwhile (b < 12) b++;\n#else\nb = 0;\n#endif\n\
               if (a > 0) b = b + 1; else b = 0;\nassert(b >= 0);\n}\n";
    assert!(rt; text.bytes().ends_with(end.as_bytes()));
    Ok(())
}

#[test]
fn lengths_grow_with_the_number(rt: HostRuntime) -> Result<(), Fail> {
    let alloc = rt.alloc();
    let rows: [(u32, usize); 4] = [(1, 63), (3, 164), (4, 194), (2000, 87_360)];
    for (number, expected) in rows {
        let text = generated_text(alloc, number).map_err(|_| "memory")?;
        assert_eq!(rt; text.bytes().len(), expected);
    }
    Ok(())
}

#[test]
fn the_model_has_eight_switches_and_a_number(rt: HostRuntime) -> Result<(), Fail> {
    let alloc = rt.alloc();
    let model = generated_model(alloc).map_err(|_| "memory")?;
    let rows: [(&str, bool, i64, i64); 9] = [
        ("F0", true, 0, 1),
        ("F1", true, 0, 1),
        ("F2", true, 0, 1),
        ("F3", true, 0, 1),
        ("F4", true, 0, 1),
        ("F5", true, 0, 1),
        ("F6", true, 0, 1),
        ("F7", true, 0, 1),
        ("N", false, 0, 9),
    ];
    let features = model.features.items();
    assert_eq!(rt; features.len(), rows.len());
    for (feature, (name, boolean, low, high)) in features.iter().zip(rows.iter()) {
        assert_eq!(rt; feature.name.bytes(), name.as_bytes());
        assert_eq!(rt;
            (feature.boolean, feature.low, feature.high),
            (*boolean, *low, *high)
        );
    }
    assert_eq!(rt; model.constraints.items().len(), 0);
    Ok(())
}

#[test]
fn a_small_family_has_two_names_and_a_condition_in_each_group(rt: HostRuntime) -> Result<(), Fail> {
    let alloc = rt.alloc();
    let made = generated_family(alloc, 3).map_err(|_| "memory")?;
    assert_eq!(rt; made.text.bytes().len(), 164);
    assert_eq!(rt; made.model.features.items().len(), 9);
    let names = made.family.code.names.items();
    assert_eq!(rt; names.len(), 2);
    assert_eq!(rt; names[0].bytes(), b"a".as_slice());
    assert_eq!(rt; names[1].bytes(), b"b".as_slice());
    assert_eq!(rt; made.family.conditions.items().len(), 2);
    let atoms = made.family.atoms.items();
    assert_eq!(rt; atoms.len(), 2);
    assert_eq!(rt;
        (atoms[0].terms.items(), atoms[0].bound),
        ([(3, 1)].as_slice(), 1)
    );
    assert_eq!(rt;
        (atoms[1].terms.items(), atoms[1].bound),
        ([(8, 1)].as_slice(), 2)
    );
    Ok(())
}

/// Of 30 blocks 20 are groups; they test all eight switches, and whether `N` is at least 2, 5 and 8.
#[test]
fn groups_test_eight_switches_and_three_bounds(rt: HostRuntime) -> Result<(), Fail> {
    let alloc = rt.alloc();
    let made = generated_family(alloc, 30).map_err(|_| "memory")?;
    assert_eq!(rt; made.family.conditions.items().len(), 20);
    assert_eq!(rt; made.family.atoms.items().len(), 11);
    Ok(())
}
