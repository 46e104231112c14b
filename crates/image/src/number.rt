// Document 01's number of a refused image.
ghost use Rattle.std.specs.Prelude.{◌≡◌};
ghost use Rattle.image.specs.Image.{number_of_refusal, number_in};

use crate::Refusal;

impl Refusal {
    pub fn number(self) -> u8
        ensures { result ≡ number_of_refusal self }
    {
        match self {
            Refusal::BadLength => 1,
            Refusal::BadCount => 2,
            Refusal::BadRow => 3,
            Refusal::UnknownByte => 4,
            Refusal::OperandsCutOff => 5,
            Refusal::OutOfRange => 6,
            Refusal::BadEnd => 7,
            Refusal::BadTarget => 8,
        }
    }
}

// The number of what `check` answers, and of any other answer that tells why an image is refused; 0 for an accepted image.
pub fn image_number<T>(checked: &Result<T, Refusal>) -> u8
    ensures { result ≡ number_in checked.now }
{
    match checked {
        Ok(_) => 0,
        Err(refusal) => refusal.number(),
    }
}
