/// Why bytes did not all pass from a source or to a sink.
#[derive(Clone, Copy, Debug, PartialEq, Eq)]
pub enum TransferFault {
    /// Memory was refused.
    OutOfMemory,
    /// The source or the sink had a fault.
    Device,
}
