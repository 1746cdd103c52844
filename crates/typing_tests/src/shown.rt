//! What elaboration answers to a text, as tests show it.

use c_texts::core_of_text;
use c_words::word::Mode;
use std::test::Fail;

/// `ok`, or the number of the refusal with its place.
fn shown(rt: &HostRuntime, text: &str) -> Result<String, Fail> {
    if text.len() > 1_000_000 {
        return Err(Fail::from("too long"));
    }
    match core_of_text(rt.alloc(), text.as_bytes(), Mode::Source) {
        Ok(_) => Ok(format!(in rt.alloc(); "ok")?),
        Err(fault) => match fault.refusal() {
            Some(refusal) => Ok(format!(in rt.alloc();
                "{} at {}:{}",
                refusal.code, refusal.place.line, refusal.place.column
            )?),
            None => Err(Fail::from("out of memory")),
        },
    }
}

/// Fails where the text isn't taken or refused as expected.
pub fn expect_shown(rt: &HostRuntime, text: &str, expected: &str) -> Result<(), Fail> {
    let found = shown(rt, text)?;
    if found.as_str() != expected {
        return Err(Fail::from(format!(in rt.alloc(); "{text}: {found}, and not {expected}")?));
    }
    Ok(())
}
