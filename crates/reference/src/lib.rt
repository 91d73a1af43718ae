// A brute-force reference compiler: naive and obviously right, proved safe and ending.
#![tactic(auto)]

pub mod bits;
pub mod compiling;
pub mod fault;
pub mod image;
pub mod machine;
pub mod numbers;
pub mod samples;
pub mod tally;
pub mod values;
