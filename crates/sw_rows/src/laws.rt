//! Laws and worked examples. Each function below has no body to speak of: its contract is the law.

pub mod examples;
pub mod spelling;
pub mod text_answers;
