use cil_base::escape;
use pe_image::Facts;
use std::alloc::{AllocError, Global};

/// The facts of an image, with their names.
pub(crate) fn facts_text(alloc: Global, facts: &Facts) -> Result<String, AllocError> {
    let Ok(version) = escape(alloc, facts.version.as_slice()) else {
        return Err(AllocError);
    };
    let version = str::from_utf8(version.as_slice()).unwrap_or("?");
    let kind = if facts.plus { "pe32+" } else { "pe32" };
    let entry = facts.entry.hex_digits();
    let entry = str::from_utf8(&entry).unwrap_or("?");
    let front = format!(in alloc;
        "{} machine={:04x} time={} characteristics={:04x} base={:016x}",
        kind, facts.machine, facts.time, facts.characteristics, facts.base
    )?;
    let back = format!(in alloc;
        "runtime={}.{} flags={} native={} entry={} version=\"{}\"",
        facts.runtime_major,
        facts.runtime_minor,
        facts.flags,
        u8::from(facts.native),
        entry,
        version
    )?;
    format!(in alloc;
        "{front} subsystem={} dll={:04x} {back}",
        facts.subsystem, facts.dll
    )
}
