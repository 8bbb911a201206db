// Every refusal of the console's parts, as one type.
#![tactic(auto)]

pub mod told;

use console::faults::ConsoleFault;
use wave::reader::WaveFault;
use wave::writer::WriteFault;
use words::faults::ReadFault;

// Why there is no mix: the text, the tracks, the console or the writer refuses.
#[derive(Clone, Copy, PartialEq, Eq, Debug)]
pub enum MixFault {
    Text(ReadFault),
    Wave(WaveFault),
    Console(ConsoleFault),
    Write(WriteFault),
}
