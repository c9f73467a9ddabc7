// What makes have in common: names, the settings of sites, groups and trunk frequencies, what settings are (`Settings`), and the make of a `Layout`.
#![tactic(auto)]

mod group;
mod layout;
mod name;
mod named;
mod record;
mod settings;
mod site;
mod trunk;

pub use group::GroupSettings;
pub use layout::{Layout, MakeOf};
pub use name::Name;
pub use named::{HasName, Named};
pub use record::Record;
pub use settings::Settings;
pub use site::SiteSettings;
pub use trunk::TrunkSettings;
