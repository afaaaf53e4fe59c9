//! Alarms of small programs by each kind of leaf, compared with alarms that were found by hand.

use std::test::Fail;
use test_runs::running::ran_over;

const STEPS_OF_TWO: &[u8] =
    b"int x;\nint main(void) {\nwhile (x < 10) x += 2;\nassert(x == 10);\n}\n";

const TWO_COUNTS: &[u8] =
    b"int x;\nint y;\nint main(void) {\nwhile (x < 9) {\nx += 2;\ny += 2;\n}\nassert(y == 10);\n}\n";

const EQUAL_COUNTS: &[u8] =
    b"int x;\nint y;\nint main(void) {\ny = x;\nwhile (x < 100) {\nx++;\ny++;\n}\nassert(x == y);\n}\n";

const CORNER: &[u8] =
    b"int x;\nint y;\nint main(void) {\nx = input();\ny = input();\nif (x >= -1000 && x <= 1000 && y >= -1000 && y <= 1000 && x + y <= 1 && x - y <= 0)\nassert(x <= 0);\n}\n";

const STEPS_OF_THREE: &[u8] =
    b"int x;\nint main(void) {\nwhile (x < 10) x += 3;\nassert(x == 12);\n}\n";

/// Steps of 2 and of 3 have no stride in common, so that `x` ends from 10 to 12.
const STEPS_OF_BOTH: &[u8] =
    b"int x,y;\nint main(void) {\ny = input();\nwhile (x < 10)\nif (y < 5) x += 2; else x += 3;\nassert(x == 10);\n}\n";

/// `x` is 2 modulo 4, so it is not 3; where overflows wrap, the product may wrap, and `x` is any number.
const FOURFOLD: &[u8] =
    b"int x,y;\nint main(void) {\ny = input();\nx = 4 * y + 2;\nassert(x % 2 == 0);\nassert(x != 3);\n}\n";

const ABOVE: &[u8] =
    b"int x;\nint y;\nint main(void) {\nx = input();\ny = x + 1;\nassert(y > x);\n}\n";

#[test]
fn kinds_of_leaf_have_alarms(rt: HostRuntime) -> Result<(), Fail> {
    let none: &[u8] = b"alarms: 0\n";
    let cases: [(&str, &[u8], u8, &[u8]); 16] = [
        (
            "plain --domain interval f",
            EQUAL_COUNTS,
            1,
            b"7:1: overflow\n9:1: assertion\nalarms: 2\n",
        ),
        ("plain f", CORNER, 1, b"7:1: assertion\nalarms: 1\n"),
        ("plain --domain octagon f", EQUAL_COUNTS, 0, none),
        ("plain f", STEPS_OF_TWO, 1, b"4:1: assertion\nalarms: 1\n"),
        ("plain --domain stride f", STEPS_OF_TWO, 0, none),
        (
            "plain --domain stride --overflow wrap f",
            STEPS_OF_TWO,
            0,
            none,
        ),
        ("plain --domain stride f", STEPS_OF_THREE, 0, none),
        (
            "plain --domain stride f",
            STEPS_OF_BOTH,
            1,
            b"6:1: assertion\nalarms: 1\n",
        ),
        (
            "plain --domain stride f",
            FOURFOLD,
            1,
            b"4:1: overflow\n5:1: assertion\nalarms: 2\n",
        ),
        (
            "plain --domain stride --overflow wrap f",
            FOURFOLD,
            1,
            b"5:1: assertion\n6:1: assertion\nalarms: 2\n",
        ),
        (
            "plain --domain octagon f",
            TWO_COUNTS,
            1,
            b"8:1: assertion\nalarms: 1\n",
        ),
        (
            "plain --domain stride f",
            TWO_COUNTS,
            1,
            b"6:1: overflow\n8:1: assertion\nalarms: 2\n",
        ),
        ("plain --domain=sharp f", TWO_COUNTS, 0, none),
        ("plain --domain=octagon f", CORNER, 0, none),
        (
            "plain --domain octagon f",
            ABOVE,
            1,
            b"5:1: overflow\nalarms: 1\n",
        ),
        (
            "plain --domain octagon --overflow wrap f",
            ABOVE,
            1,
            b"6:1: assertion\nalarms: 1\n",
        ),
    ];
    for (line, content, status, report) in cases {
        let ran = ran_over(rt.alloc(), line, &[("f", content)])?;
        assert_eq!(rt; ran.err.as_slice(), b"".as_slice(), "at {line}");
        assert_eq!(rt; ran.out.as_slice(), report, "at {line}");
        assert_eq!(rt; ran.status, status, "at {line}");
    }
    Ok(())
}
