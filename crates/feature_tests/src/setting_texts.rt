//! Texts of settings.

use fam_outer::Text;
use linear_atoms::atoms::Feature;
use linear_atoms::setting_texts::{config_text, push_settings};
use std::alloc::Global;
use std::test::Fail;

/// The features `A`, which is Boolean, and `N` from -3 to 7.
fn features(alloc: Global) -> Result<Vec<Feature>, Fail> {
    let switch = Feature {
        name: Text::from_bytes(alloc, b"A").map_err(|_| "memory")?,
        boolean: true,
        low: 0,
        high: 1,
    };
    let number = Feature {
        name: Text::from_bytes(alloc, b"N").map_err(|_| "memory")?,
        boolean: false,
        low: -3,
        high: 7,
    };
    Ok(vec![in alloc; switch, number]?)
}

#[test]
fn configurations_have_texts(rt: HostRuntime) -> Result<(), Fail> {
    let alloc = rt.alloc();
    let features = features(alloc)?;
    let both = config_text(alloc, &features, &[1, -3]).map_err(|_| "memory")?;
    assert_eq!(rt; both.bytes(), b"A=1 N=-3".as_slice());
    let one = config_text(alloc, &features[..1], &[0]).map_err(|_| "memory")?;
    assert_eq!(rt; one.bytes(), b"A=0".as_slice());
    let none = config_text(alloc, &[], &[]).map_err(|_| "memory")?;
    assert_eq!(rt; none.bytes(), b"-".as_slice());
    Ok(())
}

#[test]
fn settings_stand_behind_a_text(rt: HostRuntime) -> Result<(), Fail> {
    let alloc = rt.alloc();
    let name = Text::from_bytes(alloc, b"x").map_err(|_| "memory")?;
    let other = Text::from_bytes(alloc, b"y").map_err(|_| "memory")?;
    let names = vec![in alloc; name, other]?;
    let mut text = Vec::from_slice(alloc, b"ended")?;
    push_settings(alloc, &mut text, &names, &[10, -1]).map_err(|_| "memory")?;
    assert_eq!(rt; text.as_slice(), b"ended x=10 y=-1".as_slice());
    Ok(())
}
