//! The tags of words, and what each says of the fields behind it.
ghost use Rattle.cmwq_image.specs.Image.{last_op_tag, last_tag, op_tag, tag_of};
ghost use Rattle.cmwq_image.specs.ImageFault.{first_with, instr_room, op_room, op_tagged, shape_room, tagged};
ghost use Rattle.cmwq_types.specs.Mnemonics.{mnemonics};
ghost use Rattle.cmwq_types.specs.Operations.{op_words};
ghost use Rattle.std.specs.Prelude.{◌≡◌, slice_get};

use crate::version::{FIRST_VERSION, SECOND_VERSION, THIRD_VERSION};
use crate::word::FieldRoom;
use cmwq_types::{Mnemonic, OpWord, Shape, shape_of};

/// The tag of the first word of operations. The tags of the others follow, in the order of `OpWord`.
const FIRST_OP_TAG: u8 = 1;

/// Returns the tag of an operation's word.
pub(crate) fn op_tag(word: OpWord) -> u8
    ensures { result ≡ op_tag word }
{
    FIRST_OP_TAG + word as u8
}

/// Returns the word of an operation with this tag, if the version has it.
pub(crate) fn op_tagged(version: u16, byte: u8) -> Option<OpWord>
    ensures { result ≡ op_tagged version byte }
{
    if byte <= last_op_tag(version) {
        op_word_tagged(byte)
    } else {
        None
    }
}

/// Returns the word of an operation with this tag.
fn op_word_tagged(byte: u8) -> Option<OpWord>
    ensures { result ≡ first_with op_tag op_words byte }
{
    if byte < FIRST_OP_TAG {
        return None;
    }
    op_word_at(OpWord::all(), byte - FIRST_OP_TAG)
}

/// Returns the word at this place.
fn op_word_at(words: &[OpWord], place: u8) -> Option<OpWord>
    ensures { result ≡ slice_get words.now place }
{
    words.get(place as usize).copied()
}

/// The last tag of an operation that the version has.
fn last_op_tag(version: u16) -> u8
    ensures { result ≡ last_op_tag version }
{
    if version <= THIRD_VERSION { 4 } else { 7 }
}

/// The tag of the first word of instructions. The tags of the others follow, in the order of `Mnemonic`.
const FIRST_TAG: u8 = 16;

/// The tag of an instruction's word.
pub(crate) fn tag_of(mnemonic: Mnemonic) -> u8
    ensures { result ≡ tag_of mnemonic }
{
    FIRST_TAG + mnemonic as u8
}

/// The word with this tag, if the version has it.
pub(crate) fn tagged(version: u16, byte: u8) -> Option<Mnemonic>
    ensures { result ≡ tagged version byte }
{
    if byte <= last_tag(version) {
        word_tagged(byte)
    } else {
        None
    }
}

/// The word with this tag.
fn word_tagged(byte: u8) -> Option<Mnemonic>
    ensures { result ≡ first_with tag_of mnemonics byte }
{
    if byte < FIRST_TAG {
        return None;
    }
    word_at(Mnemonic::all(), byte - FIRST_TAG)
}

/// The word at this place.
fn word_at(words: &[Mnemonic], place: u8) -> Option<Mnemonic>
    ensures { result ≡ slice_get words.now place }
{
    words.get(place as usize).copied()
}

/// Returns the greatest values of the fields that follow the word of an operation.
pub(crate) fn op_room(word: OpWord) -> FieldRoom
    ensures { result ≡ op_room word }
{
    shape_room(word.shape())
}

/// Returns the greatest values of the fields that follow the word of an instruction.
pub(crate) fn instr_room(mnemonic: Mnemonic) -> FieldRoom
    ensures { result ≡ instr_room mnemonic }
{
    shape_room(shape_of(mnemonic))
}

/// Returns the greatest values of the fields of a shape. A queue's number has one byte.
fn shape_room(shape: Shape) -> FieldRoom
    ensures { result ≡ shape_room shape }
{
    match shape {
        Shape::Alone => FieldRoom::new(0, 0, 0),
        Shape::Work | Shape::Flush => FieldRoom::new(0, u16::MAX, 0),
        Shape::WorkCpu => FieldRoom::new(u8::MAX, u16::MAX, 0),
        Shape::WorkTicks => FieldRoom::new(0, u16::MAX, u32::MAX),
        Shape::WorkCpuTicks => FieldRoom::new(u8::MAX, u16::MAX, u32::MAX),
        Shape::Queue => FieldRoom::new(0, 255, 0),
        Shape::QueueNumber => FieldRoom::new(0, 255, u32::MAX),
        Shape::Pool => FieldRoom::new(u8::MAX, 0, 0),
        Shape::Ticks | Shape::Time => FieldRoom::new(0, 0, u32::MAX),
    }
}

/// The last tag of an instruction that the version has.
fn last_tag(version: u16) -> u8
    ensures { result ≡ last_tag version }
{
    if version == FIRST_VERSION {
        33
    } else if version == SECOND_VERSION {
        35
    } else if version == THIRD_VERSION {
        37
    } else {
        40
    }
}
