// What codes are written to: fields of bits, one behind the other.
ghost use Rattle.std.specs.Prelude.{◌≡◌, ℕ, min, Bool, List};
ghost use Rattle.outputs.specs.Bits.{bits};
ghost use Rattle.outputs.specs.Written.{Taking};

// A taker of bits. One that counts and one that packs bytes onto a store are written to alike.
pub trait BitSink {
    // The second is the first after it took these bits.
    ghost took: { Self → List Bool → Self → Type 0 };

    // Taking nothing leaves a sink as it is, and bits taken in turn are taken together.
    ghost taking: { Taking took };

    // Takes the lowest `width` bits of a number; a width over 32 counts as 32.
    fn put(&mut self, value: u32, width: usize)
        ensures { took self.old (bits (min width 32) value) self.new };
}
