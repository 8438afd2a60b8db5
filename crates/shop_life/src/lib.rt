//! Every life of a shop: openings and messages, in any of which power may go, have one list of requests.
#![tactic(auto)]

mod laws;
mod steps;

pub use laws::{
    a_changed_file_is_seen, a_dropped_message_is_seen, a_forgotten_request_is_seen,
    a_message_taken_back_is_seen, a_refused_shop_is_seen, a_second_count_is_seen,
    a_second_owner_is_seen, a_vanished_request_is_seen, a_worked_life, a_wrong_answer_is_seen,
    a_wrong_map_is_seen, all_ends, an_unstored_answer_is_seen, another_answer_is_seen,
    another_image_is_seen, answered_stays, chapters_have_lists, files_stay_whole, goods_stay,
    lost_goods_are_seen, never_falls, one_list, opened_again, the_rest_stays,
};
pub use steps::{handle_a_message, open_a_disk};
