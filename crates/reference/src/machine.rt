// The transducer that answers each key with its output.
use std::fmt;

#[derive(Drop)]
pub struct Arc<V> {
    pub byte: u8,
    pub target: usize,
    pub output: V,
}

// A byte: itself where it is a letter, a digit or a sign of ASCII, else its two hexadecimal digits.
#[derive(Clone, Copy)]
pub struct Shown(pub u8);

impl fmt::Display for Shown {
    fn fmt<W: fmt::Write>(&self, f: &mut fmt::Formatter<W>) -> fmt::Result {
        let byte = self.0;
        if byte.is_ascii_graphic() {
            let letter = char::from(byte);
            write!(f, "{letter}")
        } else {
            write!(f, "{byte:02X}")
        }
    }
}

// As `byte>target/output`.
impl<V: fmt::Display> fmt::Display for Arc<V> {
    fn fmt<W: fmt::Write>(&self, f: &mut fmt::Formatter<W>) -> fmt::Result {
        let byte = Shown(self.byte);
        let target = self.target;
        let output = &self.output;
        write!(f, "{byte}>{target}/{output}")
    }
}

#[derive(Drop)]
pub struct State<V> {
    // How many keys are accepted from here.
    pub keys: usize,
    // What is put out where a key ends here.
    pub end: Option<V>,
    // By ascending byte.
    pub arcs: Vec<Arc<V>>,
}

impl<V> State<V> {
    pub fn arc(&self, byte: u8) -> Option<&Arc<V>> {
        self.arcs.iter().find(|arc| arc.byte == byte)
    }
}

impl<V: fmt::Display> fmt::Display for State<V> {
    fn fmt<W: fmt::Write>(&self, f: &mut fmt::Formatter<W>) -> fmt::Result {
        let keys = self.keys;
        write!(f, "keys {keys}")?;
        if let Some(output) = &self.end {
            write!(f, " end {output}")?;
        }
        for arc in self.arcs.iter() {
            write!(f, " {arc}")?;
        }
        Ok(())
    }
}

#[derive(Drop)]
pub struct Machine<V> {
    // How many keys it accepts.
    pub keys: usize,
    // What is put out before the first byte.
    pub start: V,
    // By number; the last is the start state.
    pub states: Vec<State<V>>,
}

impl<V> Machine<V> {
    pub fn arc_count(&self) -> usize {
        self.states.iter().fold(0usize, |count, state| {
            count.saturating_add(state.arcs.len())
        })
    }

    // The number of the state that a byte string leads to.
    pub fn number_after(&self, string: &[u8]) -> Option<usize> {
        let start = self.states.len().saturating_sub(1);
        string.iter().try_fold(start, |number, byte| {
            Some(self.states.get(number)?.arc(*byte)?.target)
        })
    }

    // The state that a byte string leads to.
    pub fn state_after(&self, string: &[u8]) -> Option<&State<V>> {
        self.states.get(self.number_after(string)?)
    }

    // What the last arc along a byte string puts out.
    pub fn arc_output(&self, string: &[u8]) -> Option<&V> {
        let [before @ .., byte] = string else {
            return None;
        };
        let arc = self.state_after(before)?.arc(*byte)?;
        Some(&arc.output)
    }

    // What is put out where a key ends.
    pub fn end_output(&self, key: &[u8]) -> Option<&V> {
        self.state_after(key)?.end.as_ref()
    }
}
