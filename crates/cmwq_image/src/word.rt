//! The words of 8 bytes that stand for operations and instructions.
ghost use Rattle.cmwq_image.specs.Image.{word};
ghost use Rattle.cmwq_image.specs.ImageFault.{room};
ghost use Rattle.std.specs.Prelude.{◌≡◌};

/// The fields of a word. What its tag doesn't use is 0.
#[derive(Clone, Copy)]
pub(crate) struct Word {
    pub(crate) tag: u8,
    pub(crate) cpu: u8,
    pub(crate) a: u16,
    pub(crate) n: u32,
}

impl Word {
    pub(crate) fn new(tag: u8, cpu: u8, a: u16, n: u32) -> Word
        ensures { result ≡ word tag cpu a n }
    {
        Word { tag, cpu, a, n }
    }
}

/// The greatest value that each field of a word can have behind its tag: 0 where the tag doesn't use it.
#[derive(Clone, Copy)]
pub(crate) struct FieldRoom {
    pub(crate) cpu: u8,
    pub(crate) a: u16,
    pub(crate) n: u32,
}

impl FieldRoom {
    pub(crate) fn new(cpu: u8, a: u16, n: u32) -> FieldRoom
        ensures { result ≡ room cpu a n }
    {
        FieldRoom { cpu, a, n }
    }
}
