// The library: every public call, for Rattle under one roof and for C as functions on numbers and byte slices.
#![tactic(auto)]

pub mod c;

pub use forecast_records::{Forecast, ForecastList};
pub use lookup::call::lookup;
pub use pairs_calls::{intersect, join};
pub use pairs_forecast::forecast;
pub use path::call::path;
pub use path_search::answer::PathTold;
pub use product::call::product;
pub use table::answer::{Counts, Refusal};
pub use table::lent::Table;
pub use table::pair::Pair;
pub use tapes::drop::drop_tapes;
pub use tapes::project::project;
pub use tapes::union::union;
pub use text::{read, write};
