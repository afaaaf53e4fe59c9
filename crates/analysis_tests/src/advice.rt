//! What models leave open, with ample memory.

use configuration_advice::{uses, uses_text};
use fam_outer::Unknown;
use feature_model::read_model;
use std::alloc::Global;
use std::process::Abort;
use std::test::Fail;

/// The uses of the features of a model, as a text.
fn shows(rt: &impl Abort, alloc: Global, model: &str, text: &str) -> Result<(), Fail> {
    match read_model(alloc, Unknown::Zero, model.as_bytes()) {
        Ok(model) => {
            let made = uses(alloc, &model)?;
            let shown = uses_text(alloc, model.features.items(), &made)?;
            assert_eq!(rt; shown.bytes(), text.as_bytes());
        }
        Err(_) => panic!(rt; "no model: {model}"),
    }
    Ok(())
}

#[test]
fn features_have_uses(rt: HostRuntime) -> Result<(), Fail> {
    let cases = [
        ("{\"features\":[]}", ""),
        (
            "{\"features\":[{\"name\":\"A\"},{\"name\":\"N\",\"min\":0,\"max\":7}],\"constraints\":[\"A || N >= 3\"]}",
            "A: free\nN: 0 to 7\n",
        ),
        (
            "{\"features\":[{\"name\":\"A\"},{\"name\":\"N\",\"min\":0,\"max\":7}],\"constraints\":[\"A && N <= 2\"]}",
            "A: always\nN: 0 to 2\n",
        ),
        (
            "{\"features\":[{\"name\":\"A\"},{\"name\":\"N\",\"min\":0,\"max\":7}],\"constraints\":[\"!A\"]}",
            "A: dead\nN: 0 to 7\n",
        ),
        // one value only, and a number from 0 to 1, which is no switch
        (
            "{\"features\":[{\"name\":\"N\",\"min\":-3,\"max\":-3},{\"name\":\"M\",\"min\":0,\"max\":1}]}",
            "N: -3 to -3\nM: 0 to 1\n",
        ),
        // the ends of the valid values, and not of the ranges: 2 * 3 <= N and N < 2 * 7, with M from 3 to 6
        (
            "{\"features\":[{\"name\":\"N\",\"min\":-1048576,\"max\":1048576},{\"name\":\"M\",\"min\":-1048576,\"max\":1048576}],\"constraints\":[\"N == 2 * M\",\"N >= 5 && N < 13\"]}",
            "N: 6 to 12\nM: 3 to 6\n",
        ),
        // values with a gap between them
        (
            "{\"features\":[{\"name\":\"A\"},{\"name\":\"N\",\"min\":-1048576,\"max\":1048576}],\"constraints\":[\"N < -700000 || N > 900000\",\"A || N != 1048576\",\"N > -800000\"]}",
            "A: free\nN: -799999 to 1048576\n",
        ),
    ];
    for (model, text) in cases {
        shows(&rt, rt.alloc(), model, text)?;
    }
    Ok(())
}
