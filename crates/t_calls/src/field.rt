// The field of 65,536 elements.

use crate::given::word_at;
use crate::parts::Law;
use gf_65536::{add, inv, mul, pow};
use std::alloc::Global;
use t_scene_files::Fault;

/// The element that the word in this place tells, in hexadecimal digits.
fn element(words: &[&str], place: usize) -> Result<u16, Fault> {
    match u16::from_str_radix(word_at(words, place), 16) {
        Ok(element) => Ok(element),
        Err(_) => Err(Fault::Line("an element is wanted")),
    }
}

/// The line with what its elements come to.
pub(crate) fn element_told(alloc: Global, law: Law, words: &[&str]) -> Result<Vec<u8>, Fault> {
    let a = element(words, 1)?;
    if matches!(law, Law::Inverse) {
        return inverse_told(alloc, a);
    }
    let b = element(words, 2)?;
    let (word, c) = match law {
        Law::Product => ("product", mul(a, b)),
        Law::Sum => ("sum", add(a, b)),
        Law::Power | Law::Inverse => ("power", pow(a, u32::from(b))),
    };
    let told = format!(in alloc; "{word} {a:04x} {b:04x} {c:04x}\n")?;
    Ok(told.into_bytes())
}

fn inverse_told(alloc: Global, a: u16) -> Result<Vec<u8>, Fault> {
    if a == 0 {
        return Err(Fault::Line("0 has no inverse"));
    }
    let b = inv(a);
    let told = format!(in alloc; "inverse {a:04x} {b:04x}\n")?;
    Ok(told.into_bytes())
}
