// Cases on real machines, each printing what its steps answer; that is held to the file stdout.
#![tactic(auto)]

mod case;
mod edges;
mod house;
mod refusals;

fn main() {
    edges::vids();
    edges::commits();
    edges::two_slots();
    edges::full_load();
    edges::full_share();
    edges::evictions();
    refusals::refusal_1();
    refusals::refusals_3_4_5();
    refusals::refusals_7_9_10();
    refusals::order();
    refusals::refusal_2();
    house::count();
    house::unused_caches();
    house::lcvid();
    house::empty_slots();
    house::addresses();
    house::plain_vids();
    house::se_zero();
    house::top_vids();
    house::so_vids();
    house::ss_vids();
    house::table();
    house::plain_caches();
    house::plain_words();
    house::one_top();
    house::ranges();
    house::lowest();
    house::owner_line();
    house::share_reach();
    house::share_twice();
}
