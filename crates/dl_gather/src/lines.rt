//! The lines that say why a command stops.
ghost use Rattle.std.specs.Prelude.{◌≡◌, IfOk};
ghost use Rattle.spec_program.specs.Lines.{usage_line as usage_text, plan_line as plan_text, image_line as image_text, log_line as log_text};
ghost use Rattle.spec_program.specs.Lines.{bad_strata_line as bad_strata_text};
ghost use Rattle.spec_program.specs.Lines.{script_line as script_text, source_line as source_text, absent_line as absent_text};
ghost use Rattle.spec_program.specs.Lines.{fault_line as fault_text, made_line as made_text, assembled_line as assembled_text};
ghost use Rattle.spec_program.specs.Lines.{migrated_line as migrated_text, strata_line as strata_text};

use std::alloc::{AllocError, Global};

pub fn usage_line(alloc: Global) -> Result<Vec<u8>, AllocError>
    ensures { IfOk result (λ line. line.items ≡ usage_text) }
{
    Vec::from_slice(alloc, b"usage\n")
}

pub fn plan_line(alloc: Global, rule: u8) -> Result<Vec<u8>, AllocError>
    ensures { IfOk result (λ line. line.items ≡ plan_text rule) }
{
    Ok(format!(in alloc; "refused plan {rule}\n")?.into_bytes())
}

pub fn image_line(alloc: Global, sphere: usize, rule: u8) -> Result<Vec<u8>, AllocError>
    ensures { IfOk result (λ line. line.items ≡ image_text sphere rule) }
{
    Ok(format!(in alloc; "refused image {sphere} {rule}\n")?.into_bytes())
}

pub fn log_line(
    alloc: Global,
    sphere: usize,
    number: u8,
    offset: u64,
) -> Result<Vec<u8>, AllocError>
    ensures { IfOk result (λ line. line.items ≡ log_text sphere number offset) }
{
    Ok(format!(in alloc; "refused log {sphere} {number} {offset}\n")?.into_bytes())
}

pub fn bad_strata_line(
    alloc: Global,
    sphere: usize,
    number: u8,
    at: u64,
) -> Result<Vec<u8>, AllocError>
    ensures { IfOk result (λ line. line.items ≡ bad_strata_text sphere number at) }
{
    Ok(format!(in alloc; "refused strata {sphere} {number} {at}\n")?.into_bytes())
}

pub fn script_line(alloc: Global, number: u64) -> Result<Vec<u8>, AllocError>
    ensures { IfOk result (λ line. line.items ≡ script_text number) }
{
    Ok(format!(in alloc; "refused script {number}\n")?.into_bytes())
}

pub fn source_line(alloc: Global, number: u64, rule: u8) -> Result<Vec<u8>, AllocError>
    ensures { IfOk result (λ line. line.items ≡ source_text number rule) }
{
    Ok(format!(in alloc; "refused source {number} {rule}\n")?.into_bytes())
}

pub fn absent_line(alloc: Global, name: &str) -> Result<Vec<u8>, AllocError>
    ensures { IfOk result (λ line. line.items ≡ absent_text name.now) }
{
    Ok(format!(in alloc; "absent {name}\n")?.into_bytes())
}

pub fn fault_line(alloc: Global, name: &str) -> Result<Vec<u8>, AllocError>
    ensures { IfOk result (λ line. line.items ≡ fault_text name.now) }
{
    Ok(format!(in alloc; "fault {name}\n")?.into_bytes())
}

pub fn made_line(alloc: Global, bytes: usize) -> Result<Vec<u8>, AllocError>
    ensures { IfOk result (λ line. line.items ≡ made_text bytes) }
{
    Ok(format!(in alloc; "made {bytes}\n")?.into_bytes())
}

pub fn assembled_line(alloc: Global, bytes: usize) -> Result<Vec<u8>, AllocError>
    ensures { IfOk result (λ line. line.items ≡ assembled_text bytes) }
{
    Ok(format!(in alloc; "assembled {bytes}\n")?.into_bytes())
}

pub fn migrated_line(alloc: Global, bytes: u64) -> Result<Vec<u8>, AllocError>
    ensures { IfOk result (λ line. line.items ≡ migrated_text bytes) }
{
    Ok(format!(in alloc; "migrated {bytes}\n")?.into_bytes())
}

pub fn strata_line(alloc: Global, strata: usize, bytes: usize) -> Result<Vec<u8>, AllocError>
    ensures { IfOk result (λ line. line.items ≡ strata_text strata bytes) }
{
    Ok(format!(in alloc; "strata {strata} {bytes}\n")?.into_bytes())
}
