use crate::RunOrder;

/// What a command line orders.
#[derive(Debug, Drop)]
pub enum Order {
    /// `run`: a run of an image.
    Run(RunOrder),
    /// `gen`: the image and the script of this number, and their run.
    Gen(u64),
}
