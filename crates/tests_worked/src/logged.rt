//! Rows of the log: bytes and images that docs/LOG.md decides, worked out by `tests/power/log_model.py`.

mod hole_rows;
mod life_rows;
mod log_rows;
mod logs;
mod served_rows;
mod talks;
