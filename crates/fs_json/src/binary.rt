//! Bytes, as strings of base64.
ghost use Rattle.std.specs.Prelude.{◌≡◌, ◌↔◌, ℕ, List, Some, IfOk};
ghost use Rattle.base64.specs.Engines.{standard, standard_no_pad, url_safe, url_safe_no_pad};
ghost use Rattle.base64.specs.GeneralPurpose.{decoded_of, IsBytes};
ghost use Rattle.fs_path.specs.declared.place.Rule.TheVariants.{G};
ghost use Rattle.fs_path.specs.Way.{place_of};
ghost use Rattle.serde_json.specs.View.{view as json};
ghost use Rattle.fs_json.specs.Answer.{Gives, or_fault};
ghost use Rattle.fs_json.specs.Base64.{bytes_of, decoded, IsBase64};

use crate::bad::Bad;
use base64::DecodeAllocError;
use base64::engine::general_purpose::{
    GeneralPurpose, STANDARD, STANDARD_NO_PAD, URL_SAFE, URL_SAFE_NO_PAD,
};
use fs_path::{Bytes, Rule, Way};
use serde_json::Value;
use std::alloc::{AllocError, Global};

/// Bytes: a string of base64 in the standard or the URL alphabet, with all of its padding or none.
/// (docs/DECISIONS.md, "Partial padding of base64 is refused".)
pub fn read_bytes(alloc: Global, v: &Value, way: &Way<'_>) -> Result<Bytes, Bad>
    ensures { Gives (λ b. b) result (or_fault G (place_of way.now) (bytes_of (json v.now))) }
{
    if let Some(text) = v.as_str()
        && let Some(bytes) = decoded(alloc, text.as_bytes())?
    {
        return Ok(bytes);
    }
    Err(Bad::at(alloc, Rule::G, way))
}

/// Shows that just the texts of the four forms of base64 are read, and each as the bytes that it is of.
pub fn base64_forms()
    ensures { (text b : List ℕ) → IsBytes text → IsBytes b
        → (decoded text ≡ Some b) ↔ IsBase64 text b }
{}

#[tactic(auto, unfolding(crate::specs::Base64::decoded))]
fn decoded(alloc: Global, text: &[u8]) -> Result<Option<Bytes>, AllocError>
    ensures { IfOk result (λ found. found ≡ decoded text.now) }
{
    if let Some(bytes) = by_standard(alloc, text)? {
        return Ok(Some(bytes));
    }
    if let Some(bytes) = by_standard_no_pad(alloc, text)? {
        return Ok(Some(bytes));
    }
    if let Some(bytes) = by_url_safe(alloc, text)? {
        return Ok(Some(bytes));
    }
    by_url_safe_no_pad(alloc, text)
}

#[tactic(auto, unfolding(base64::specs::GeneralPurpose::decoded_of))]
fn by_standard(alloc: Global, text: &[u8]) -> Result<Option<Bytes>, AllocError>
    ensures { IfOk result (λ found. found ≡ decoded_of standard text.now) }
{
    decoded_by(alloc, &STANDARD, text)
}

#[tactic(auto, unfolding(base64::specs::GeneralPurpose::decoded_of))]
fn by_standard_no_pad(alloc: Global, text: &[u8]) -> Result<Option<Bytes>, AllocError>
    ensures { IfOk result (λ found. found ≡ decoded_of standard_no_pad text.now) }
{
    decoded_by(alloc, &STANDARD_NO_PAD, text)
}

#[tactic(auto, unfolding(base64::specs::GeneralPurpose::decoded_of))]
fn by_url_safe(alloc: Global, text: &[u8]) -> Result<Option<Bytes>, AllocError>
    ensures { IfOk result (λ found. found ≡ decoded_of url_safe text.now) }
{
    decoded_by(alloc, &URL_SAFE, text)
}

#[tactic(auto, unfolding(base64::specs::GeneralPurpose::decoded_of))]
fn by_url_safe_no_pad(alloc: Global, text: &[u8]) -> Result<Option<Bytes>, AllocError>
    ensures { IfOk result (λ found. found ≡ decoded_of url_safe_no_pad text.now) }
{
    decoded_by(alloc, &URL_SAFE_NO_PAD, text)
}

#[tactic(auto, unfolding(base64::specs::GeneralPurpose::decoded_of))]
fn decoded_by(
    alloc: Global,
    engine: &GeneralPurpose,
    text: &[u8],
) -> Result<Option<Bytes>, AllocError>
    ensures { IfOk result (λ found. found ≡ decoded_of engine.now text.now) }
{
    match engine.decode(alloc, text) {
        Ok(bytes) => Ok(Some(Bytes::of(bytes))),
        Err(DecodeAllocError::DecodeError(_)) => Ok(None),
        Err(DecodeAllocError::OutOfMemory) => Err(AllocError),
    }
}
