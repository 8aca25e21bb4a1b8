// The library as C links it, out/libgalthumir_c.a: each function of the crate galthumir, exported under its own name with the
// same clauses. include/galthumir.h declares them. The toolkit exports the functions of the one crate that is built as an
// archive, and no crate can stand on such a one, so the functions themselves stand in galthumir.
#![tactic(auto)]

pub mod expressions;
pub mod groups;
pub mod maps;
pub mod orders;
pub mod sessions;
