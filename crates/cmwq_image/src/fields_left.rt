//! The fields of an image, one after the other.
ghost use Rattle.cmwq_image.specs.ImageFault.{GivesRead, behind_magic, field, read_instr_tag, read_name, name_in_field, read_number, read_op_tag, read_version};
ghost use Rattle.std.specs.List.{list_all};
ghost use Rattle.std.specs.Int.{w8, w16, w32};
ghost use Rattle.std.specs.Prelude.{◌≡◌, ◌+◌, ◌≤◌, ◌==◌, IfOk, OnOk, Some, length};
ghost use Rattle.cmwq_image.specs.declared.error.ImageError.TheVariants as errors;

use crate::error::ImageError;
use crate::tags::{op_tagged, tagged};
use crate::version::{FIRST_VERSION, VERSION};
use cmwq_types::{MAX_NAME, Mnemonic, Name, OpWord};
use std::marker::Model;

/// What is left of the bytes of an image.
#[derive(Drop)]
pub(crate) struct FieldsLeft<'a> {
    at: u32,
    rest: &'a [u8],
}

impl<'a> Model for FieldsLeft<'a> {
    ghost use Rattle.cmwq_image.specs.ImageFault.{Place};

    ghost Value = { Place };

    ghost view = { λ fields. record { at = fields.at; rest = fields.rest.now } };
}

impl<'a> FieldsLeft<'a> {
    /// The fields behind the magic bytes.
    pub(crate) fn behind_magic(bytes: &'a [u8]) -> Result<FieldsLeft<'a>, ImageError>
        ensures read { GivesRead (λ fields. fields) result (behind_magic bytes.now) }
        ensures at { IfOk result (λ fields. fields.at ≡ 4) }
    {
        match bytes.strip_prefix(b"CMWQ") {
            Some(rest) => Ok(FieldsLeft { at: 4, rest }),
            None => Err(ImageError::Magic),
        }
    }

    /// Whether nothing is left.
    pub(crate) fn is_empty(&self) -> bool
        ensures { result ≡ (length self.now.rest == 0) }
    {
        self.rest.is_empty()
    }

    /// The bytes of a field, all of them.
    fn take(&mut self, size: usize) -> Result<&'a [u8], ImageError>
        requires { self.old.at + size ≤ u32.MAX }
        ensures read { GivesRead (λ bytes. (bytes.now, self.new)) result (field errors.BadField size Some self.old) }
        ensures size { IfOk result (λ bytes. length bytes.now ≡ size) }
        ensures ahead { OnOk result (self.new.at ≡ self.old.at + size) }
    {
        if self.rest.len() < size {
            return Err(ImageError::Truncated);
        }
        let (front, rest) = self.rest.split_at(size);
        self.at += size as u32;
        self.rest = rest;
        Ok(front)
    }

    /// A number of one byte, from `low` to `high`.
    pub(crate) fn byte(&mut self, low: u8, high: u8) -> Result<u8, ImageError>
        requires { self.old.at + 1 ≤ u32.MAX }
        ensures read { GivesRead (λ n. (n, self.new)) result (read_number w8 low high self.old) }
        ensures within { IfOk result (λ n. (low ≤ n) × (n ≤ high)) }
        ensures ahead { OnOk result (self.new.at ≡ self.old.at + 1) }
    {
        let at = self.at;
        let bytes = self.take(1)?;
        let n = u8::from_be_bytes([bytes[0]]);
        if n < low || high < n {
            return Err(ImageError::BadField(at));
        }
        Ok(n)
    }

    /// A number of two bytes, from `low` to `high`.
    pub(crate) fn short(&mut self, low: u16, high: u16) -> Result<u16, ImageError>
        requires { self.old.at + 2 ≤ u32.MAX }
        ensures read { GivesRead (λ n. (n, self.new)) result (read_number w16 low high self.old) }
        ensures within { IfOk result (λ n. (low ≤ n) × (n ≤ high)) }
        ensures ahead { OnOk result (self.new.at ≡ self.old.at + 2) }
    {
        let at = self.at;
        let bytes = self.take(2)?;
        let n = u16::from_be_bytes([bytes[0], bytes[1]]);
        if n < low || high < n {
            return Err(ImageError::BadField(at));
        }
        Ok(n)
    }

    /// A number of four bytes, from `low` to `high`.
    pub(crate) fn long(&mut self, low: u32, high: u32) -> Result<u32, ImageError>
        requires { self.old.at + 4 ≤ u32.MAX }
        ensures read { GivesRead (λ n. (n, self.new)) result (read_number w32 low high self.old) }
        ensures within { IfOk result (λ n. (low ≤ n) × (n ≤ high)) }
        ensures ahead { OnOk result (self.new.at ≡ self.old.at + 4) }
    {
        let at = self.at;
        let bytes = self.take(4)?;
        let n = u32::from_be_bytes([bytes[0], bytes[1], bytes[2], bytes[3]]);
        if n < low || high < n {
            return Err(ImageError::BadField(at));
        }
        Ok(n)
    }

    /// The version, one of those that there are.
    pub(crate) fn version(&mut self) -> Result<u16, ImageError>
        requires { self.old.at + 2 ≤ u32.MAX }
        ensures read { GivesRead (λ version. (version, self.new)) result (read_version self.old) }
        ensures ahead { OnOk result (self.new.at ≡ self.old.at + 2) }
    {
        let bytes = self.take(2)?;
        let version = u16::from_be_bytes([bytes[0], bytes[1]]);
        if version < FIRST_VERSION || VERSION < version {
            return Err(ImageError::Version);
        }
        Ok(version)
    }

    /// A name: its length, its bytes, and zeros.
    pub(crate) fn name(&mut self) -> Result<Name, ImageError>
        requires { self.old.at + 16 ≤ u32.MAX }
        ensures read { GivesRead (λ name. (name, self.new)) result (read_name self.old) }
        ensures ahead { OnOk result (self.new.at ≡ self.old.at + 16) }
    {
        let at = self.at;
        let bytes = self.take(16)?;
        name_in_field(bytes).ok_or(ImageError::BadField(at))
    }

    /// The tag of an operation, one that the version has.
    pub(crate) fn op_tag(&mut self, version: u16) -> Result<OpWord, ImageError>
        requires { self.old.at + 1 ≤ u32.MAX }
        ensures read { GivesRead (λ tag. (tag, self.new)) result (read_op_tag version self.old) }
        ensures ahead { OnOk result (self.new.at ≡ self.old.at + 1) }
    {
        let at = self.at;
        let bytes = self.take(1)?;
        op_tagged(version, u8::from_be_bytes([bytes[0]])).ok_or(ImageError::BadField(at))
    }

    /// The word of an instruction whose tag the version has.
    pub(crate) fn instr_tag(&mut self, version: u16) -> Result<Mnemonic, ImageError>
        requires { self.old.at + 1 ≤ u32.MAX }
        ensures read { GivesRead (λ tag. (tag, self.new)) result (read_instr_tag version self.old) }
        ensures ahead { OnOk result (self.new.at ≡ self.old.at + 1) }
    {
        let at = self.at;
        let bytes = self.take(1)?;
        tagged(version, u8::from_be_bytes([bytes[0]])).ok_or(ImageError::BadField(at))
    }
}

/// The name of which these 16 bytes are the field.
fn name_in_field(bytes: &[u8]) -> Option<Name>
    requires { length bytes.now ≡ 16 }
    ensures { result ≡ name_in_field bytes.now }
{
    let len = bytes[0] as usize;
    if len > MAX_NAME {
        return None;
    }
    let (name, rest) = bytes[1..].split_at(len);
    if !are_zeros(rest) {
        return None;
    }
    Name::read(name)
}

/// Whether each byte is 0.
fn are_zeros(bytes: &[u8]) -> bool
    ensures { result ≡ list_all (λ byte. byte == 0) bytes.now }
{
    bytes.iter().all(|byte| *byte == 0)
}
