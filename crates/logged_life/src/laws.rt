//! The law of every life over a log, as the contract of a function that does nothing.
ghost use Rattle.std.specs.Prelude.{List};
ghost use Rattle.d64_image.specs.Images.{Image};
ghost use Rattle.host_session.specs.shop.Shop.{IsShop, Shop};
ghost use Rattle.logged_life.specs.Services.{HasOneList, IsLife, Service};

use image_log::ImageLog;
use line_server::{BatchReplies, BatchSource};

/// Services of a shop over logs, one after another, have one list of lines: of each service the first ones that it handled. If
/// power goes in it, or after it, each line whose reply was reported before is among them, and at each moment power leaves the
/// shop after the lines of earlier services and some first ones of its own. What stands there afterwards is a shop's disk again: a
/// life of `shop_life` may begin on it.
pub fn one_list_over_a_log<L: ImageLog, R: BatchSource, T: BatchReplies<L>>()
    ensures { (s : Shop) (image : Image) (services : List (Service L R T))
        (life : IsLife L.history R.input T.output image services) → IsShop image s
        → HasOneList L.history R.input T.output s image services life }
{}
