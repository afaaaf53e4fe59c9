//! Files with groups that are refused: two faults of each code at least, and files with two faults.

use crate::family_reading::{MIXED, NUMBER, SWITCH, refuse_all, refuses};
use std::test::Fail;

#[test]
fn lines_are_refused(rt: HostRuntime) -> Result<(), Fail> {
    let cases: [(&str, &[u8], &str, u32, u32); 19] = [
        (MIXED, b"#if A\n#endif\n/* x", "OpenComment", 3, 1),
        (MIXED, b"int main(void) { /* } /*", "OpenComment", 1, 18),
        (MIXED, b"#if A \\\n && B\n#endif", "Splice", 1, 7),
        (MIXED, b"// one \\\r\nint main(void) { }", "Splice", 1, 8),
        (
            SWITCH,
            b"#if A /* note\n*/\n#endif\nint main(void) { }\n",
            "CommentAtDirective",
            1,
            7,
        ),
        (
            SWITCH,
            b"int main(void) { } /*\n*/ #if A\n#endif",
            "CommentAtDirective",
            1,
            20,
        ),
        (MIXED, b"#if A\n#define X\n#endif", "Directive", 2, 1),
        (MIXED, b"#if A\n #endif A", "Directive", 2, 2),
        (MIXED, b"int main(void) {\n#endif\n}", "NoIf", 2, 1),
        (MIXED, b"#if A\n#endif\n #elif B", "NoIf", 3, 2),
        (SWITCH, b"int main(void) {\n#if A\n", "NoEndif", 2, 1),
        (MIXED, b"#if A\n@", "NoEndif", 1, 1),
        (MIXED, b"#if A\n#else\n#else\n#endif", "SecondElse", 3, 1),
        (
            MIXED,
            b"#if A\n#else\n\t#elif B\n#endif",
            "SecondElse",
            3,
            2,
        ),
        (
            SWITCH,
            b"int main(void) {\n#if __FOO\nassert(0);\n#endif\n}\n",
            "Condition(ReservedName)",
            2,
            1,
        ),
        (
            NUMBER,
            b"int main(void) {\n#if N * N > 1\nassert(0);\n#endif\n}\n",
            "Condition(NonLinear)",
            2,
            1,
        ),
        (
            NUMBER,
            b"int main(void) {\n#if N > 2147483649\nassert(0);\n#endif\n}\n",
            "Condition(TooLarge)",
            2,
            1,
        ),
        (MIXED, b"#ifdef A B\n#endif", "Condition(Syntax)", 1, 1),
        (
            MIXED,
            b"#if A\n#elif 1 +\n#endif",
            "Condition(Syntax)",
            2,
            1,
        ),
    ];
    for (features, file, wanted, line, column) in cases {
        refuses(&rt, rt.alloc(), features, file, wanted, line, column)?;
    }
    Ok(())
}

#[test]
fn items_are_refused(rt: HostRuntime) -> Result<(), Fail> {
    let rows = r"
#if A\n@\n#endif => StrayByte 2:1
int main(void) { }\n#if A\n&\n#endif => StrayByte 3:1
int x;\nint main(void) {\n#if A\nx = 08;\n#endif\n} => Literal 4:5
int x = 2147483648;\nint main(void) { } => Literal 1:9
#if A\nint x;\n#endif\nint main(void) { y = ; } => Syntax 4:22
#if A\nint main(void) { }\n#endif\n => Syntax 2:5
int main(void) { }\n#if A\n;\n#endif => Syntax 3:1
int main(void) {\n#if A\n#endif\n => Syntax 4:1
int x;\nint main(void) {\nx =\n#if A\n1;\n#endif\n} => GroupInsideStatement 4:1
int x;\nint y;\nint main(void) {\nif (x) y = 1;\n#if A\nelse y = 2;\n#endif\n}\n => GroupInsideStatement 6:1
int x;\nint main(void) {\nif (x)\n#if A\nx = 1;\n#endif\n} => GroupInsideStatement 4:1
int x,\n#if A\ny,\n#endif\nz; int main() { } => GroupInsideStatement 2:1
int main(void) {\n#if A\n{\n#endif\n}\n} => GroupInsideStatement 4:1
int main(void) {\n#if A\nelse ;\n#endif\n} => GroupInsideStatement 3:1
";
    refuse_all(&rt, rt.alloc(), MIXED, rows)?;
    Ok(())
}

#[test]
fn names_are_refused(rt: HostRuntime) -> Result<(), Fail> {
    let cases: [(&str, &[u8], &str, u32, u32); 13] = [
        (
            MIXED,
            b"int x;\nint main(void) {\n#if A\ny = 1;\n#endif\n}",
            "Undeclared(None)",
            4,
            1,
        ),
        (
            SWITCH,
            b"#ifdef A\nint x;\n#endif\nint main(void) {\nx = 1;\n}\n",
            "Undeclared(Some(Values { list: [0] }))",
            5,
            1,
        ),
        (
            MIXED,
            b"#ifdef B\nint x;\n#endif\nint main(void) {\n#if N > 2\nx = 1;\n#endif\n}",
            "Undeclared(Some(Values { list: [0, 0, 3] }))",
            6,
            1,
        ),
        (
            SWITCH,
            b"#if A\nint x;\n#elif A\nint y;\n#endif\nint main(void) {\n#if A\ny = 1;\n#endif\n}",
            "Undeclared(Some(Values { list: [1] }))",
            8,
            1,
        ),
        (
            SWITCH,
            b"int x;\n#ifdef A\nint x;\n#endif\nint main(void) { }\n",
            "Twice(Some(Values { list: [1] }))",
            3,
            5,
        ),
        (
            MIXED,
            b"#if A\nint x;\n#endif\n#if B\nint x;\n#endif\nint main(void) { }",
            "Twice(Some(Values { list: [1, 1, 0] }))",
            5,
            5,
        ),
        (
            SWITCH,
            b"int x, x;\nint main(void) { }",
            "Twice(Some(Values { list: [0] }))",
            1,
            8,
        ),
        (
            "{\"features\":[{\"name\":\"A\"}],\"constraints\":[\"A\"]}",
            b"int x, x;\nint main(void) { }",
            "Twice(Some(Values { list: [1] }))",
            1,
            8,
        ),
        (
            MIXED,
            b"int x, A;\nint main(void) { }",
            "FeatureInCode",
            1,
            8,
        ),
        (
            MIXED,
            b"int x;\nint main(void) {\n#if A\nx = B;\n#endif\n}",
            "FeatureInCode",
            4,
            5,
        ),
        (
            MIXED,
            b"int a,b,c,d,e,f,g,h,i,j,k,l,m,n,o,p,q;\nint main(void) { }",
            "TooManyVariables",
            1,
            37,
        ),
        // the second declaration of `a` is no 17th name
        (
            MIXED,
            b"#if A\nint a;\n#else\nint a;\n#endif\nint b,c,d,e,f,g,h,i,j,k,l,m,n,o,p,q;\nint main(void) { }",
            "TooManyVariables",
            6,
            35,
        ),
        // 17 names, of which each configuration keeps nine at most
        (
            MIXED,
            b"#if N > 50\nint a,b,c,d,e,f,g,h;\n#else\nint i,j,k,l,m,n,o,p;\n#endif\n#if A\nint q;\n#endif\nint main(void) { }",
            "TooManyVariables",
            7,
            5,
        ),
    ];
    for (features, file, wanted, line, column) in cases {
        refuses(&rt, rt.alloc(), features, file, wanted, line, column)?;
    }
    Ok(())
}

#[test]
fn the_first_fault_decides(rt: HostRuntime) -> Result<(), Fail> {
    let rows = r"
// of two phases the earlier one, in both orders
#if A\n/* x => OpenComment 2:1
#foo\n\\n => Splice 2:1
\\n#foo => Splice 1:1
@\n#endif => NoIf 2:1
@\n#if N * N\n#endif => Condition(NonLinear) 2:1
#endif\n@ => NoIf 1:1
int = 1;\n08 => Literal 2:1
int = 1;\n#if A\n@\n#endif => StrayByte 3:1
08\nint = 1; => Literal 1:1
int x, x;\nint main(void) { x = } => Syntax 2:22
int main(void) {\ny = 1;\n#if A\n{\n#endif\n} => GroupInsideStatement 5:1
int = 1;\nint main(void) { y = 1; } => Syntax 1:5
// of one phase the first place, in both orders
/*\n*/#if A\n\\n#endif => CommentAtDirective 1:1
\\n/*\n*/#if A\n#endif => Splice 1:1
\\n/* x => Splice 1:1
/* \\n => OpenComment 1:1
#else\n#foo => NoIf 1:1
#foo\n#else => Directive 1:1
#if A\n#foo => NoEndif 1:1
#foo\n#if A => Directive 1:1
#if N * N\n#else\n#else\n#endif => Condition(NonLinear) 1:1
#if A\n#else\n#else\n#endif\n#if N * N\n#endif => SecondElse 3:1
@ 08 => StrayByte 1:1
08 @ => Literal 1:1
int x,\n#if A\ny;\n#endif\nint = 1; => GroupInsideStatement 2:1
int = 1;\nint x,\n#if A\ny;\n#endif => Syntax 1:5
int x, x, A;\nint main(void) { } => Twice(Some(Values { list: [0, 0, 0] })) 1:8
int A, x, x;\nint main(void) { } => FeatureInCode 1:5
int main(void) { y = A; } => Undeclared(None) 1:18
int main(void) { A = y; } => FeatureInCode 1:18
int a,a,b,c,d,e,f,g,h,i,j,k,l,m,n,o,p,q;\nint main(void) { } => Twice(Some(Values { list: [0, 0, 0] })) 1:7
int a,b,c,d,e,f,g,h,i,j,k,l,m,n,o,p,q,a;\nint main(void) { } => TooManyVariables 1:37
// at one place the lower code
#if A /*\n => OpenComment 1:7
#if N * N => NoEndif 1:1
int a,b,c,d,e,f,g,h,i,j,k,l,m,n,o,p,A;\nint main(void) { } => FeatureInCode 1:37
";
    refuse_all(&rt, rt.alloc(), MIXED, rows)?;
    Ok(())
}
