// What the program is asked for: its arguments.
use crate::{Asked, Options};
use anyhow::Result;
use pocsag::TextKind;
use std::env;

// What the arguments after the program's name ask for, or nothing if one of them is not known.
pub(crate) fn options(rt: &HostRuntime) -> Result<Option<Asked>> {
    let mut options = Options {
        is_raw: false,
        kind: None,
        is_explained: false,
    };
    let mut summary = None;
    for text in env::args(rt)?.skip(1) {
        match text.as_str() {
            "--raw" => options.is_raw = true,
            "--explain" => options.is_explained = true,
            "--numeric" => options.kind = Some(TextKind::Numeric),
            "--chinese" => options.kind = Some(TextKind::NumericChinese),
            "--text" => options.kind = Some(TextKind::SevenBit),
            other => {
                let Some(name) = other.strip_prefix("--summary=") else {
                    return Ok(None);
                };
                summary = Some(String::from_str(rt.alloc(), name)?);
            }
        }
    }
    Ok(Some(Asked { options, summary }))
}
