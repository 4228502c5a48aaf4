//! Tests of the reader of ASCII AIGER texts, over texts with what each is answered with. Nothing
//! else is here, so that the reader itself is proved once.
#![tactic(auto)]

#[cfg(test)]
mod texts;
