//! The certificate of the queue, changed in one number or one literal at a time: what `check` says of the family is what it says of its
//! members, one after another, each with the lines whose regions it meets.

use fam_outer::NoMemory;
use memchr::memmem;
use std::alloc::Global;
use std::process::Abort;
use std::test::Fail;
use test_runs::cases::content_of;
use test_runs::running::{Ran, ran_over};

/// The literals of the queue's regions, with their denials, and the bit of a member that is their truth.
const LITERALS: [(&[u8], &[u8], u32); 7] = [
    (b"LOG", b"!LOG", 64),
    (b"FAST", b"!FAST", 32),
    (b"RETRY", b"!RETRY", 16),
    (b"SAFE", b"!SAFE", 8),
    (b"BULK", b"!BULK", 4),
    (b"SIZE >= 8", b"SIZE <= 7", 2),
    (b"LIMIT >= 1", b"LIMIT <= 0", 1),
];

/// One configuration of those with the same truths of all tests, the least, with the text of its variant, and the lines of the certificate
/// whose regions it meets. The bits rise as the configurations do.
#[derive(Drop)]
struct Member {
    bits: u32,
    config: String,
    text: Vec<u8>,
    lines: Vec<u8>,
}

/// Texts cut at the first place of a separator.
fn cut<'a>(text: &'a [u8], separator: &[u8]) -> Option<(&'a [u8], &'a [u8])> {
    let place = memmem::find(text, separator)?;
    let (front, found) = text.split_at(place);
    let (_separator, rest) = found.split_at(separator.len());
    Some((front, rest))
}

/// The values of a member.
fn config_of(alloc: Global, bits: u32) -> Result<String, NoMemory> {
    let (log, fast, retry) = (bits / 64 % 2, bits / 32 % 2, bits / 16 % 2);
    let (safe, bulk) = (bits / 8 % 2, bits / 4 % 2);
    let (size, limit) = (1 + bits / 2 % 2 * 7, bits % 2);
    Ok(format!(in alloc;
        "LOG={log} FAST={fast} RETRY={retry} SAFE={safe} BULK={bulk} SIZE={size} LIMIT={limit}"
    )?)
}

/// The members of the queue: those that are not both fast and safe.
fn members(alloc: Global, certificate: &[u8]) -> Result<Vec<Member>, NoMemory> {
    let contents = [
        ("m", content_of("queue.json")),
        ("f", content_of("queue.c")),
    ];
    let mut list = Vec::new(alloc);
    for bits in 0..128u32 {
        if (bits & 32) == 0 || (bits & 8) == 0 {
            let config = config_of(alloc, bits)?;
            let line = format!(in alloc; "project m f {config}")?;
            let text = ran_over(alloc, line.as_str(), &contents)?.out;
            let lines = lines_of(alloc, bits, certificate)?;
            list.push(Member {
                bits,
                config,
                text,
                lines,
            })?;
        }
    }
    Ok(list)
}

/// Whether a member meets a literal, if it is one.
fn meets(bits: u32, literal: &[u8]) -> Option<bool> {
    for (yes, no, bit) in LITERALS {
        if literal == yes {
            return Some((bits & bit) != 0);
        }
        if literal == no {
            return Some((bits & bit) == 0);
        }
    }
    None
}

/// Whether a member meets a region, if it is one.
fn meets_all(bits: u32, region: &[u8]) -> Option<bool> {
    if region == b"1".as_slice() {
        return Some(true);
    }
    let mut all = true;
    let mut rest = region;
    for _ in 0..region.len() {
        let Some((piece, behind)) = cut(rest, b" && ") else {
            break;
        };
        all = meets(bits, piece)? && all;
        rest = behind;
    }
    Some(meets(bits, rest)? && all)
}

/// What stands before the region of a line, the region, and the leaf of a loop.
fn parts(line: &[u8]) -> Option<(&[u8], &[u8], Option<&[u8]>)> {
    let (head, behind) = cut(line, b" if ")?;
    match cut(behind, b": ") {
        Some((region, leaf)) => Some((head, region, Some(leaf))),
        None => Some((head, behind, None)),
    }
}

/// The number that digits spell, perhaps behind `-`.
fn number_of(text: &[u8]) -> Option<i64> {
    let mut value = 0i64;
    let mut sign = 1i64;
    for byte in text {
        if *byte == b'-' {
            sign = -1;
        } else {
            value = value
                .checked_mul(10)?
                .checked_add(i64::from(*byte))?
                .checked_sub(48)?;
        }
    }
    value.checked_mul(sign)
}

/// Whether a leaf has a range that is empty.
fn has_empty_range(leaf: &[u8]) -> bool {
    let mut rest = leaf;
    for _ in 0..leaf.len() {
        let Some((_front, behind)) = cut(rest, b" in [") else {
            break;
        };
        rest = behind;
        if let Some((low, more)) = cut(behind, b",")
            && let Some((high, _rest)) = cut(more, b"]")
            && number_of(low) > number_of(high)
        {
            return true;
        }
    }
    false
}

/// The line that tells the first fault of a certificate, if there is one.
fn fault_of(alloc: Global, text: &[u8]) -> Result<Option<String>, NoMemory> {
    let Some((_header, lines)) = cut(text, b"famlint certificate 1 stop\n") else {
        return Ok(Some(String::from_str(alloc, "certificate: E2\n")?));
    };
    let mut number = 1u64;
    let mut rest = lines;
    for _ in 0..text.len() {
        let Some((line, behind)) = cut(rest, b"\n") else {
            break;
        };
        rest = behind;
        number = number.saturating_add(1);
        let Some((_head, region, leaf)) = parts(line) else {
            return Ok(Some(format!(in alloc; "certificate: E3 at line {number}\n")?));
        };
        if has_empty_range(leaf.unwrap_or(b"")) {
            return Ok(Some(format!(in alloc; "certificate: E3 at line {number}\n")?));
        }
        if meets_all(0, region).is_none() {
            return Ok(Some(format!(in alloc; "certificate: E4 at line {number}\n")?));
        }
    }
    Ok(None)
}

/// The lines of a certificate whose regions a member meets, each with the region `1`.
fn lines_of(alloc: Global, bits: u32, text: &[u8]) -> Result<Vec<u8>, NoMemory> {
    let mut made = Vec::from_slice(alloc, b"famlint certificate 1 stop\n")?;
    let mut rest = text;
    for _ in 0..text.len() {
        let Some((line, behind)) = cut(rest, b"\n") else {
            break;
        };
        rest = behind;
        if let Some((head, region, leaf)) = parts(line)
            && meets_all(bits, region) == Some(true)
        {
            made.extend_from_slice(head)?;
            made.extend_from_slice(b" if 1")?;
            if let Some(leaf) = leaf {
                made.extend_from_slice(b": ")?;
                made.extend_from_slice(leaf)?;
            }
            made.push(b'\n')?;
        }
    }
    Ok(made)
}

/// What is wrong with a certificate of one member: first loops, then by the place and the kind; with the text of it.
fn wrong_with(
    alloc: Global,
    told: &[u8],
) -> Result<Option<((u32, i64, i64, u32), Vec<u8>)>, NoMemory> {
    let Some((_no, behind)) = cut(told, b"certificate: no: ") else {
        return Ok(None);
    };
    let (what, _example) = cut(behind, b"; ").unwrap_or((behind, b""));
    let (place, kind) = cut(what, b" ").unwrap_or((what, b""));
    let (line, column) = cut(place, b":").unwrap_or((place, b""));
    let rank = if kind == b"loop".as_slice() {
        0
    } else if kind == b"overflow".as_slice() {
        1
    } else if kind == b"zero-divisor".as_slice() {
        2
    } else {
        3
    };
    let key = (
        u32::from(rank != 0),
        number_of(line).unwrap_or(0),
        number_of(column).unwrap_or(0),
        rank,
    );
    Ok(Some((key, Vec::from_slice(alloc, what)?)))
}

/// What the check of one member comes to, with these lines.
fn checked_alone(alloc: Global, member: &Member, lines: &[u8]) -> Result<Ran, NoMemory> {
    let contents = [
        ("m", content_of("m0")),
        ("f", member.text.as_slice()),
        ("c", lines),
    ];
    ran_over(alloc, "check m f c", &contents)
}

/// The line of the verdict, by the members: the first that is wrong with one of them, at the first of those. A member with the lines that
/// it had has nothing wrong.
fn verdict_of(alloc: Global, members: &[Member], text: &[u8]) -> Result<Option<Vec<u8>>, NoMemory> {
    let mut first = None;
    let mut line = None;
    for member in members {
        let lines = lines_of(alloc, member.bits, text)?;
        let ran = if lines.as_slice() == member.lines.as_slice() {
            None
        } else {
            Some(checked_alone(alloc, member, &lines)?)
        };
        if let Some(ran) = ran
            && let Some((key, what)) = wrong_with(alloc, ran.out.as_slice())?
            && first.is_none_or(|earlier| key < earlier)
        {
            first = Some(key);
            let mut told = Vec::from_slice(alloc, b"certificate: no: ")?;
            told.extend_from_slice(what.as_slice())?;
            told.extend_from_slice(b"; example ")?;
            told.extend_from_slice(member.config.as_bytes())?;
            told.push(b'\n')?;
            line = Some(told);
        }
    }
    Ok(line)
}

/// Compares what the check of a text comes to with what its members say.
fn compared(rt: &impl Abort, alloc: Global, members: &[Member], text: &[u8]) -> Result<(), Fail> {
    let contents = [
        ("m", content_of("queue.json")),
        ("f", content_of("queue.c")),
        ("c", text),
    ];
    let ran = ran_over(alloc, "check m f c", &contents).map_err(|_| "memory")?;
    if let Some(fault) = fault_of(alloc, text).map_err(|_| "memory")? {
        assert_eq!(rt; ran.err.as_slice(), fault.as_bytes());
        assert_eq!(rt; ran.status, 9);
        return Ok(());
    }
    match verdict_of(alloc, members, text).map_err(|_| "memory")? {
        Some(line) => {
            assert_eq!(rt; ran.out.as_slice(), line.as_slice());
            assert_eq!(rt; ran.status, 1);
        }
        None => assert_eq!(rt; ran.status, 0),
    }
    Ok(())
}

/// The text with another piece in the place of the one between these two places.
fn replaced(
    alloc: Global,
    text: &[u8],
    from: usize,
    to: usize,
    piece: &[u8],
) -> Result<Vec<u8>, NoMemory> {
    let mut made = Vec::new(alloc);
    for (place, byte) in text.iter().enumerate() {
        if place == from {
            made.extend_from_slice(piece)?;
        }
        if place < from || to <= place {
            made.push(*byte)?;
        }
    }
    Ok(made)
}

/// The number beside this one, towards 0 at the ends of `int`.
fn beside(alloc: Global, digits: &[u8]) -> Result<Vec<u8>, NoMemory> {
    let number = number_of(digits).unwrap_or(0);
    let other = if number > 2147483646 {
        number.saturating_sub(1)
    } else {
        number.saturating_add(1)
    };
    let text = format!(in alloc; "{other}")?;
    Ok(text.into_bytes())
}

/// How many digits stand at the place, if the byte before it is none.
fn digits_at(text: &[u8], place: usize) -> usize {
    let mut count = 0usize;
    let mut before = false;
    for (at, byte) in text.iter().enumerate() {
        let is_digit = byte.is_ascii_digit();
        if at < place {
            before = is_digit;
        } else if !is_digit || before {
            return count;
        } else {
            count = count.saturating_add(1);
        }
    }
    count
}

/// The certificate that `certify` writes of the queue.
fn certificate(alloc: Global) -> Result<Vec<u8>, NoMemory> {
    let contents = [
        ("m", content_of("queue.json")),
        ("f", content_of("queue.c")),
    ];
    Ok(ran_over(alloc, "certify m f", &contents)?.out)
}

#[test]
fn each_number_changed(rt: HostRuntime) -> Result<(), Fail> {
    let alloc = rt.alloc();
    let text = certificate(alloc)?;
    let members = members(alloc, &text)?;
    for member in &members {
        let ran = checked_alone(alloc, member, &member.lines)?;
        assert_eq!(rt; ran.status, 0);
    }
    compared(&rt, alloc, &members, &text)?;
    let mut changed = 0u32;
    for place in 0..text.len() {
        let count = digits_at(&text, place);
        let end = place.saturating_add(count);
        if let Some(digits) = text.as_slice().get(place..end)
            && count > 0
        {
            let other = beside(alloc, digits)?;
            let made = replaced(alloc, &text, place, end, &other)?;
            compared(&rt, alloc, &members, &made)?;
            changed = changed.saturating_add(1);
        }
    }
    assert!(rt; changed > 50);
    Ok(())
}

#[test]
fn each_literal_denied(rt: HostRuntime) -> Result<(), Fail> {
    let alloc = rt.alloc();
    let text = certificate(alloc)?;
    let members = members(alloc, &text)?;
    let mut changed = 0u32;
    for (yes, no, _bit) in LITERALS {
        for (literal, other) in [(yes, no), (no, yes)] {
            let mut from = 0usize;
            let mut rest = text.as_slice();
            for _ in 0..text.len() {
                let Some((front, behind)) = cut(rest, literal) else {
                    break;
                };
                let place = from.saturating_add(front.len());
                let end = place.saturating_add(literal.len());
                // the name of a switch also stands in its denial
                if !front.ends_with(b"!") {
                    let made = replaced(alloc, &text, place, end, other)?;
                    compared(&rt, alloc, &members, &made)?;
                    changed = changed.saturating_add(1);
                }
                from = end;
                rest = behind;
            }
        }
    }
    assert!(rt; changed > 20);
    Ok(())
}
