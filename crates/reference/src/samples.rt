// The sheets of the bench, and what is expected of each.
use crate::fault::Fault;
use crate::values::{Kind, Value};
use sheets::Pair;
use std::alloc::Global;

// A figure that only some sheets have.
#[derive(Clone, Copy)]
pub enum Detail {
    // What the last arc along a byte string puts out.
    Arc(&'static str, &'static str),
    // What is put out where a key ends.
    End(&'static str, &'static str),
    // The image in hexadecimal digits.
    Image(&'static str),
}

// Pairs with what was worked out of them apart from this program.
#[derive(Clone, Copy)]
pub struct Sheet {
    pub name: &'static str,
    pub kind: Kind,
    // A word `key=output` for each pair, by ascending key.
    pub pairs: &'static str,
    pub states: usize,
    pub arcs: usize,
    // The length of the image.
    pub bytes: usize,
    pub detail: Option<Detail>,
}

// The pairs that a text spells.
pub fn read_pairs<V: Value>(heap: Global, text: &str) -> Result<Vec<Pair<V>>, Fault> {
    text.split_whitespace()
        .map(|word| read_pair(heap, word))
        .try_collect(heap)
}

fn read_pair<V: Value>(heap: Global, word: &str) -> Result<Pair<V>, Fault> {
    let (key, shown) = word.split_once('=').ok_or(Fault::Unreadable)?;
    Ok(Pair {
        key: key.as_bytes().to_vec(heap)?,
        output: V::read(heap, shown)?,
    })
}

pub static SHEETS: [Sheet; 19] = [
    Sheet {
        name: "the empty key",
        kind: Kind::Numbers,
        pairs: "=7",
        states: 1,
        arcs: 0,
        bytes: 26,
        detail: Some(Detail::Image(
            "54 44 01 00 01 00 00 00 00 08 00 00 00 38 00 00 04 6C 00 00 00 20 00 00 00 00",
        )),
    },
    Sheet {
        name: "one key",
        kind: Kind::Numbers,
        pairs: "A=5",
        states: 2,
        arcs: 1,
        bytes: 41,
        detail: None,
    },
    Sheet {
        name: "two keys",
        kind: Kind::Numbers,
        pairs: "A=5 B=7",
        states: 2,
        arcs: 2,
        bytes: 48,
        detail: Some(Detail::Arc("B", "2")),
    },
    Sheet {
        name: "two texts",
        kind: Kind::Texts,
        pairs: "P1=toe P2=top",
        states: 3,
        arcs: 3,
        bytes: 49,
        detail: Some(Detail::Arc("P2", "'p'")),
    },
    Sheet {
        name: "a key and a longer one",
        kind: Kind::Numbers,
        pairs: "a=1 ab=3",
        states: 3,
        arcs: 2,
        bytes: 59,
        detail: Some(Detail::Arc("ab", "2")),
    },
    Sheet {
        name: "one ending",
        kind: Kind::Numbers,
        pairs: "ax=0 bx=4",
        states: 3,
        arcs: 3,
        bytes: 62,
        detail: Some(Detail::Arc("b", "4")),
    },
    Sheet {
        name: "the greater output first",
        kind: Kind::Numbers,
        pairs: "a=5 ab=2",
        states: 3,
        arcs: 2,
        bytes: 59,
        detail: Some(Detail::End("a", "3")),
    },
    Sheet {
        name: "shared endings",
        kind: Kind::Numbers,
        pairs: "on-ab=10 on-cd=11 up-ab=20 up-cd=21",
        states: 8,
        arcs: 9,
        bytes: 143,
        detail: None,
    },
    Sheet {
        name: "every output equal",
        kind: Kind::Numbers,
        pairs: "K1=9 K2=9 K3=9 N1=9 N2=9 N3=9",
        states: 3,
        arcs: 5,
        bytes: 76,
        detail: None,
    },
    Sheet {
        name: "each key a prefix of the next",
        kind: Kind::Texts,
        pairs: "=p a=pq ab=pqr abc=p",
        states: 4,
        arcs: 3,
        bytes: 59,
        detail: None,
    },
    Sheet {
        name: "the widest numbers",
        kind: Kind::Numbers,
        pairs: "A=4294967295 B=4294967294 C=0",
        states: 2,
        arcs: 3,
        bytes: 55,
        detail: None,
    },
    Sheet {
        name: "the longest text",
        kind: Kind::Texts,
        pairs: "P1=metre-per-second-gusting P2=metre P3=",
        states: 3,
        arcs: 4,
        bytes: 78,
        detail: None,
    },
    Sheet {
        name: "bytes above 127",
        kind: Kind::Numbers,
        pairs: "mA=1 µA=2 Ω=3",
        states: 5,
        arcs: 6,
        bytes: 99,
        detail: None,
    },
    Sheet {
        name: "a small logger",
        kind: Kind::Numbers,
        pairs: "P1=1 P2=2 P3=3 PZ-07=7 PZ-08=8",
        states: 6,
        arcs: 9,
        bytes: 128,
        detail: None,
    },
    Sheet {
        name: "its units",
        kind: Kind::Texts,
        pairs: "P1=l/min P2=l/h P3=l/h PZ-07=bar PZ-08=mbar",
        states: 6,
        arcs: 9,
        bytes: 108,
        detail: None,
    },
    Sheet {
        name: "two dams",
        kind: Kind::Numbers,
        pairs: "DAM1.N1=101 DAM1.N2=102 DAM1.N3=103 DAM2.N1=201 DAM2.N2=202 DAM2.N3=203",
        states: 8,
        arcs: 10,
        bytes: 150,
        detail: None,
    },
    Sheet {
        name: "their units",
        kind: Kind::Texts,
        pairs: "DAM1.N1=m DAM1.N2=m DAM1.N3=mm DAM2.N1=m DAM2.N2=m DAM2.N3=mm",
        states: 8,
        arcs: 10,
        bytes: 112,
        detail: None,
    },
    Sheet {
        name: "twelve tags",
        kind: Kind::Numbers,
        pairs: "BAT=40 DAM2.N3=17 P1=30 P2=31 P3=32 PZ-07=37 PZ-08=38 PZ-09=39 T1=60 T2=61 T3=62 TX=63",
        states: 15,
        arcs: 25,
        bytes: 309,
        detail: None,
    },
    Sheet {
        name: "twelve texts",
        kind: Kind::Texts,
        pairs: "BAT=volt DAM2.N3=metre P1=bar P2=bar P3=bar PZ-07=millibar PZ-08=millibar PZ-09=mm T1=celsius T2=celsius T3=celsius TX=kelvin",
        states: 15,
        arcs: 25,
        bytes: 279,
        detail: None,
    },
];
