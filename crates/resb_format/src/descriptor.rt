//! Descriptors of resources: a type and where the resource stands.
//! What stands there is read by the reader.
ghost use Rattle.std.specs.Prelude.{◌<◌, ◌^◌};

use crate::error::BinaryDeserializerError;
use crate::repr_type::ResourceReprType;
use resb_tree::NoMemory;

/// A resource's word in a file: 4 bits of type, 28 bits of value. (ICU's `uresdata.h`: `Resource`.)
#[derive(Clone, Copy, Debug, PartialEq, Eq)]
pub struct ResDescriptor {
    resource_type: ResourceReprType,
    value: u32,
    ghost small: { value < 2 ^ 28 },
}

impl ResDescriptor {
    ghost use Rattle.std.specs.Prelude.{◌≡◌, ◌<◌, ◌^◌, ◌==◌};
    ghost use Rattle.resb_format.specs.Descriptor.{type_of, value_of};

    /// A descriptor of this type and value.
    pub fn new(resource_type: ResourceReprType, value: u32) -> ResDescriptor
        requires { value < 2 ^ 28 }
        ensures type_is { type_of result ≡ resource_type }
        ensures value_is { value_of result ≡ value }
    {
        ResDescriptor {
            resource_type,
            value,
        }
    }

    /// The descriptor of the empty resource of a type, whose value is 0.
    pub fn _new_empty(resource_type: ResourceReprType) -> ResDescriptor
        ensures type_is { type_of result ≡ resource_type }
        ensures value_is { value_of result ≡ 0 }
    {
        ResDescriptor::new(resource_type, 0)
    }

    /// Whether the value is 0, which is the empty resource for every type but `Int`.
    pub fn is_empty(&self) -> bool
        ensures { result ≡ (value_of self.now == 0) }
    {
        self.value == 0
    }

    /// The type.
    pub fn resource_type(&self) -> ResourceReprType
        ensures { result ≡ type_of self.now }
    {
        self.resource_type
    }

    /// The value: the number of an `Int`, else a place in words or units, as the type says.
    pub fn value(&self) -> u32
        ensures value_is { result ≡ value_of self.now }
        ensures small { result < 2 ^ 28 }
    {
        self.value
    }
}

impl ResDescriptor {
    ghost use Rattle.std.specs.Prelude.{◌≡◌, ◌++◌, OnOk};
    ghost use Rattle.std.specs.Int.{to_le_bytes, w32};
    ghost use Rattle.resb_format.specs.Descriptor.{word_of};

    /// Appends the 4 bytes of the word. For want of memory a part of them may be there.
    pub fn append_to(self, bytes: &mut Vec<u8>) -> Result<(), NoMemory>
        ensures { let written = to_le_bytes w32 (word_of self) in
            OnOk result (bytes.new.items ≡ bytes.old.items ++ written) }
    {
        bytes.extend_from_slice(&u32::from(self).to_le_bytes())?;
        Ok(())
    }
}

/// The type in the upper 4 bits, the value in the lower 28.
impl From<ResDescriptor> for u32 {
    ghost use Rattle.std.specs.Prelude.{◌≡◌};
    ghost use Rattle.resb_format.specs.Descriptor.{word_of};

    ghost from_gives = { λ d w. w ≡ word_of d };

    fn from(descriptor: ResDescriptor) -> u32 {
        u32::from(u16::from(descriptor.resource_type)) * 0x1000_0000 + descriptor.value
    }
}

/// Upper 4 bits that name no type are refused.
impl TryFrom<u32> for ResDescriptor {
    ghost use Rattle.resb_format.specs.DescriptorReading.{ReadsDescriptor};

    type Error = BinaryDeserializerError;

    ghost try_from_gives = { ReadsDescriptor };

    fn try_from(word: u32) -> Result<ResDescriptor, BinaryDeserializerError> {
        let resource_type = ResourceReprType::try_from((word / 0x1000_0000) as u16)?;
        Ok(ResDescriptor::new(resource_type, word % 0x1000_0000))
    }
}
