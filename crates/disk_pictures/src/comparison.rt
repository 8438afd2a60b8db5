//! Two versions of a disk, compared.
pub(crate) mod changed_records;
pub(crate) mod changes;
pub(crate) mod compared;
pub(crate) mod comparing;
pub(crate) mod comparison_laws;
pub(crate) mod counterparts;
pub(crate) mod differences;
pub(crate) mod versions;
