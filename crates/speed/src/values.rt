//! Outputs as a sheet writes them.
use crate::fault::Trouble;
use outputs::number::Number;
use outputs::output::Output;
use outputs::text::Text;
use sheets::decimal;
use std::alloc::{AllocError, Global};

/// An output that a sheet can hold.
pub trait Value: Output {
    /// Reads what follows the TAB.
    fn parse(field: &[u8]) -> Result<Self, Trouble>;

    /// Writes it as a sheet does.
    fn shown(&self, heap: Global) -> Result<Vec<u8>, AllocError>;
}

impl Value for Number {
    fn parse(field: &[u8]) -> Result<Number, Trouble> {
        let value = decimal(field).ok_or(Trouble::NoNumber)?;
        Ok(Number { value })
    }

    fn shown(&self, heap: Global) -> Result<Vec<u8>, AllocError> {
        Ok(self.value.to_string(heap)?.into_bytes())
    }
}

impl Value for Text {
    fn parse(field: &[u8]) -> Result<Text, Trouble> {
        Ok(Text::new(field)?)
    }

    fn shown(&self, heap: Global) -> Result<Vec<u8>, AllocError> {
        self.as_bytes().to_vec(heap)
    }
}
