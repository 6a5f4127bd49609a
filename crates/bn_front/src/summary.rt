use bn_types::Finish;

/// What is told of a run.
#[derive(Debug, Drop)]
pub struct Summary {
    /// How it ended.
    pub finish: Finish,
    pub text: Vec<u8>,
}
