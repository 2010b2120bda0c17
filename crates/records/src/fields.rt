// The fields of a record, of either version.
ghost use Rattle.std.specs.Prelude.{◌≡◌};
ghost use Rattle.records.specs.Layout.{width};
ghost use Rattle.records.specs.Record.{record_at, fields_of, holds_record};

use crate::bytes::window;
use crate::layouts::{fields_inside, fields_one, fields_two};
use crate::{Book, Version};

// A record's fields as they stand, as unsigned numbers. The kind is a byte and no enum, since a record can hold any.
#[derive(Clone, Copy)]
pub struct Fields {
    pub link: u16,
    pub kind: u8,
    pub pad: u8,
    pub a: u16,
    pub b: u16,
    pub label: u16,
    pub c: u32,
}

impl<'a> Book<'a> {
    // How many bytes a record has.
    pub fn width(&self) -> usize
        ensures { result ≡ width self.now.layout }
    {
        match self.version {
            Version::One => 12,
            Version::Two => 14,
        }
    }

    // Whether a record's bytes are all there.
    pub fn is_inside(&self, index: u16) -> bool
        ensures { result ≡ holds_record self.now.layout self.now.bytes index }
    {
        match self.version {
            Version::One => index as usize * 12 + 12 <= self.bytes.len(),
            Version::Two => index as usize * 14 + 14 <= self.bytes.len(),
        }
    }

    // The fields of a record that ends early or is not there, with zeros for the bytes that are missing. It is a function of its own with
    // two callers, `fields_at` and `decoding::inspect`, so that the compiler leaves it out of line and the way of a record that is there
    // stays short.
    pub fn fields_past(&self, index: u16) -> Fields
        ensures { result ≡ fields_of self.now.layout (record_at self.now.layout self.now.bytes index) }
    {
        match self.version {
            Version::One => fields_one(&window(self.bytes, index as usize * 12), 0),
            Version::Two => fields_two(&window(self.bytes, index as usize * 14), 0),
        }
    }

    // The fields of a record, with one test for all its bytes.
    pub fn fields_at(&self, index: u16) -> Fields
        ensures { result ≡ fields_of self.now.layout (record_at self.now.layout self.now.bytes index) }
    {
        if self.is_inside(index) {
            fields_inside(self, index)
        } else {
            self.fields_past(index)
        }
    }
}
