//! Features as values in code, and the limits of variables, constants and values.
//!
//! Lines and columns are counted by hand.
#![tactic(auto)]

use crate::family_reading::{MIXED, NUMBER, SWITCH, read, refuses};
use std::test::Fail;

/// Numbers whose values 200, 56, 57 and 1 tests tell.
const WIDE: &str =
    "{\"features\":[{\"name\":\"N\",\"min\":0,\"max\":200},{\"name\":\"M\",\"min\":-28,\"max\":28},{\"name\":\"L\",\"min\":1,\"max\":58},{\"name\":\"K\",\"min\":0,\"max\":1}]}";

#[test]
fn values_are_read(rt: HostRuntime) -> Result<(), Fail> {
    let cases: [(&str, &[u8]); 10] = [
        (MIXED, b"int x;\nint main(void) {\nif (N > 2) x = N;\n}"),
        (
            MIXED,
            b"int x;\nint main(void) {\n#if A\nx = N + N;\n#else\nassert(N >= 0);\n#endif\n}",
        ),
        // no valid configuration keeps the change
        (NUMBER, b"int main(void) {\n#if N > 7\nN = 3;\n#endif\n}"),
        // 256 tests, and a feature that is used again
        (WIDE, b"int x;\nint main(void) {\nx = N + M;\nx = M - N;\n}"),
        (WIDE, b"int x;\nint main(void) {\nx = M + L + K;\n}"),
        // a feature of a condition is no value
        (
            WIDE,
            b"int x;\nint main(void) {\n#if K + L > 2\nx = N + M;\n#endif\n}",
        ),
        // 16 variables and 16 constants
        (
            MIXED,
            b"int a,b,c,d,e,f,g,h,i,j,k,l,m,n,o,p;\nenum {q,r,s,t,u,v,w,x,y,z,aa,bb,cc,dd,ee,ff};\nint main(void) { a = q; }",
        ),
        // 16 variables, 15 constants and a value
        (
            MIXED,
            b"int a,b,c,d,e,f,g,h,i,j,k,l,m,n,o,p;\nenum {q,r,s,t,u,v,w,x,y,z,aa,bb,cc,dd,ee};\nint main(void) { a = N; b = N; }",
        ),
        // a name whose first declaration is a constant's is no variable
        (
            SWITCH,
            b"#ifdef A\nenum { a };\n#else\nint a;\n#endif\nint b,c,d,e,f,g,h,i,j,k,l,m,n,o,p,q;\nint main(void) { }",
        ),
        (
            SWITCH,
            b"#ifdef A\nint a;\n#else\nenum { a };\n#endif\nenum {b,c,d,e,f,g,h,i,j,k,l,m,n,o,p,q};\nint main(void) { }",
        ),
    ];
    for (features, file) in cases {
        assert!(rt; read(rt.alloc(), features, file)?.is_ok());
    }
    Ok(())
}

#[test]
fn values_are_refused(rt: HostRuntime) -> Result<(), Fail> {
    let cases: [(&str, &[u8], &str, u32, u32); 8] = [
        // a switch, and a declaration
        (
            MIXED,
            b"int x;\nint main(void) {\nx = A;\n}",
            "FeatureInCode",
            3,
            5,
        ),
        (MIXED, b"int N;\nint main(void) { }", "FeatureInCode", 1, 5),
        (
            MIXED,
            b"enum { N };\nint main(void) { }",
            "FeatureInCode",
            1,
            8,
        ),
        // changes
        (MIXED, b"int main(void) {\nN++;\n}", "ChangedConstant", 2, 1),
        (MIXED, b"int main(void) {\n--N;\n}", "ChangedConstant", 2, 3),
        (
            MIXED,
            b"int main(void) {\nN = 3;\n}",
            "ChangedConstant",
            2,
            1,
        ),
        (
            NUMBER,
            b"int main(void) {\n#if N > 6\nN += 3;\n#endif\n}",
            "ChangedConstant",
            3,
            1,
        ),
        // of two faults at one place the first
        (
            WIDE,
            b"int x;\nint main(void) {\nx = N + M;\nK++;\n}",
            "TooManyValueTests",
            4,
            1,
        ),
    ];
    for (features, file, wanted, line, column) in cases {
        refuses(&rt, rt.alloc(), features, file, wanted, line, column)?;
    }
    Ok(())
}

#[test]
fn limits_are_kept(rt: HostRuntime) -> Result<(), Fail> {
    let cases: [(&str, &[u8], &str, u32, u32); 9] = [
        // 257 tests, by a third feature and by a second one
        (
            WIDE,
            b"int x;\nint main(void) {\nx = N + M;\nx = N + K;\n}",
            "TooManyValueTests",
            4,
            9,
        ),
        (
            WIDE,
            b"int x;\nint main(void) {\nx = N;\nx = L;\n}",
            "TooManyValueTests",
            4,
            5,
        ),
        // whatever group it stands in
        (
            WIDE,
            b"int x;\nint main(void) {\nx = L;\n#if K\nx = N;\n#endif\n}",
            "TooManyValueTests",
            5,
            5,
        ),
        // 16 constants and a value, or 17 constants
        (
            MIXED,
            b"enum {a,b,c,d,e,f,g,h,i,j,k,l,m,n,o,p};\nint x;\nint main(void) {\nx = N;\n}",
            "TooManyConstants",
            4,
            5,
        ),
        (
            MIXED,
            b"enum {a,b,c,d,e,f,g,h,i,j,k,l,m,n,o,p,q};\nint main(void) { }",
            "TooManyConstants",
            1,
            39,
        ),
        (
            WIDE,
            b"const int a=1,b=1,c=1,d=1,e=1,f=1,g=1;\nenum {h,i,j,k,l,m,n,o};\nint x;\nint main(void) {\nx = M;\nx = K;\n}",
            "TooManyConstants",
            6,
            5,
        ),
        // too many tests come before too many constants, and these before a change
        (
            WIDE,
            b"enum {a,b,c,d,e,f,g,h,i,j,k,l,m,n};\nint x;\nint main(void) {\nx = N + M;\nx = K;\n}",
            "TooManyValueTests",
            5,
            5,
        ),
        (
            MIXED,
            b"enum {a,b,c,d,e,f,g,h,i,j,k,l,m,n,o,p};\nint main(void) {\nN = 3;\n}",
            "TooManyConstants",
            3,
            1,
        ),
        // a name whose first declaration is a variable's is no constant
        (
            SWITCH,
            b"#ifdef A\nint a;\n#else\nenum { a };\n#endif\nint b,c,d,e,f,g,h,i,j,k,l,m,n,o,p,q;\nint main(void) { }",
            "TooManyVariables",
            6,
            35,
        ),
    ];
    for (features, file, wanted, line, column) in cases {
        refuses(&rt, rt.alloc(), features, file, wanted, line, column)?;
    }
    Ok(())
}
