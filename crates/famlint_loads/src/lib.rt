//! What is loaded for a request, and why it is refused: the model, the file, the settings and the certificate, in this order.
#![tactic(auto)]

mod certificate;
mod fault;
mod load;
mod product_line;
mod selected;

pub use certificate::load_certificate;
pub use fault::{Done, Failure, Fault};
pub use load::{load_file, load_model};
pub use product_line::{ProductLine, ProductLineFiles, load_product_line, load_product_line_files};
pub use selected::{Selected, select};
