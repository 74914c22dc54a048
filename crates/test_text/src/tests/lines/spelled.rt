//! Lines that spell a request, written as `write_request` writes them: each word at its bounds.

/// Of market and wallets.
pub const WALLETS: &str = "\
    1 1 price 12\n\
    0 0 price 0\n\
    4294967295 18446744073709551615 price 18446744073709551615\n\
    2 3 price 0\n\
    2 3 price 1\n\
    2 3 price 18446744073709551615\n\
    1 1 advance 12\n\
    0 0 advance 0\n\
    4294967295 18446744073709551615 advance 18446744073709551615\n\
    2 3 advance 0\n\
    2 3 advance 1\n\
    2 3 advance 18446744073709551615\n\
    1 1 fund 7 12\n\
    0 0 fund 0 0\n\
    4294967295 18446744073709551615 fund 4294967295 18446744073709551615\n\
    2 3 fund 0 12\n\
    2 3 fund 1048575 12\n\
    2 3 fund 1048576 12\n\
    2 3 fund 4294967295 12\n\
    2 3 fund 7 0\n\
    2 3 fund 7 1\n\
    2 3 fund 7 18446744073709551615\n\
    1 1 take 7 12\n\
    0 0 take 0 0\n\
    4294967295 18446744073709551615 take 4294967295 18446744073709551615\n\
    2 3 take 0 12\n\
    2 3 take 1048575 12\n\
    2 3 take 1048576 12\n\
    2 3 take 4294967295 12\n\
    2 3 take 7 0\n\
    2 3 take 7 1\n\
    2 3 take 7 18446744073709551615\n\
    1 1 send 7 7 12\n\
    0 0 send 0 0 0\n\
    4294967295 18446744073709551615 send 4294967295 4294967295 18446744073709551615\n\
    2 3 send 0 7 12\n\
    2 3 send 1048575 7 12\n\
    2 3 send 1048576 7 12\n\
    2 3 send 4294967295 7 12\n\
    2 3 send 7 0 12\n\
    2 3 send 7 1048575 12\n\
    2 3 send 7 1048576 12\n\
    2 3 send 7 4294967295 12\n\
    2 3 send 7 7 0\n\
    2 3 send 7 7 1\n\
    2 3 send 7 7 18446744073709551615";

/// Of troves.
pub const TROVES: &str = "\
    1 1 open 7 12 12 12 - -\n\
    0 0 open 0 0 0 0 0 0\n\
    4294967295 18446744073709551615 open 4294967295 18446744073709551615 18446744073709551615 \
        18446744073709551615 4294967294 4294967294\n\
    2 3 open 0 12 12 12 - -\n\
    2 3 open 1048575 12 12 12 - -\n\
    2 3 open 1048576 12 12 12 - -\n\
    2 3 open 4294967295 12 12 12 - -\n\
    2 3 open 7 0 12 12 - -\n\
    2 3 open 7 1 12 12 - -\n\
    2 3 open 7 18446744073709551615 12 12 - -\n\
    2 3 open 7 12 0 12 - -\n\
    2 3 open 7 12 1 12 - -\n\
    2 3 open 7 12 18446744073709551615 12 - -\n\
    2 3 open 7 12 12 0 - -\n\
    2 3 open 7 12 12 1 - -\n\
    2 3 open 7 12 12 18446744073709551615 - -\n\
    2 3 open 7 12 12 12 0 -\n\
    2 3 open 7 12 12 12 4294967294 -\n\
    2 3 open 7 12 12 12 - 0\n\
    2 3 open 7 12 12 12 - 4294967294\n\
    2 3 open 7 12 12 12 1048575 1048576\n\
    1 1 adjust 7 12 12 12 12 12 - -\n\
    0 0 adjust 0 0 0 0 0 0 0 0\n\
    4294967295 18446744073709551615 adjust 4294967295 18446744073709551615 18446744073709551615 \
        18446744073709551615 18446744073709551615 18446744073709551615 4294967294 4294967294\n\
    2 3 adjust 0 12 12 12 12 12 - -\n\
    2 3 adjust 1048575 12 12 12 12 12 - -\n\
    2 3 adjust 1048576 12 12 12 12 12 - -\n\
    2 3 adjust 4294967295 12 12 12 12 12 - -\n\
    2 3 adjust 7 0 12 12 12 12 - -\n\
    2 3 adjust 7 1 12 12 12 12 - -\n\
    2 3 adjust 7 18446744073709551615 12 12 12 12 - -\n\
    2 3 adjust 7 12 0 12 12 12 - -\n\
    2 3 adjust 7 12 1 12 12 12 - -\n\
    2 3 adjust 7 12 18446744073709551615 12 12 12 - -\n\
    2 3 adjust 7 12 12 0 12 12 - -\n\
    2 3 adjust 7 12 12 1 12 12 - -\n\
    2 3 adjust 7 12 12 18446744073709551615 12 12 - -\n\
    2 3 adjust 7 12 12 12 0 12 - -\n\
    2 3 adjust 7 12 12 12 1 12 - -\n\
    2 3 adjust 7 12 12 12 18446744073709551615 12 - -\n\
    2 3 adjust 7 12 12 12 12 0 - -\n\
    2 3 adjust 7 12 12 12 12 1 - -\n\
    2 3 adjust 7 12 12 12 12 18446744073709551615 - -\n\
    2 3 adjust 7 12 12 12 12 12 0 -\n\
    2 3 adjust 7 12 12 12 12 12 4294967294 -\n\
    2 3 adjust 7 12 12 12 12 12 - 0\n\
    2 3 adjust 7 12 12 12 12 12 - 4294967294\n\
    2 3 adjust 7 12 12 12 12 12 1048575 1048576\n\
    1 1 close 7\n\
    0 0 close 0\n\
    4294967295 18446744073709551615 close 4294967295\n\
    2 3 close 0\n\
    2 3 close 1048575\n\
    2 3 close 1048576\n\
    2 3 close 4294967295";

/// Of the Stability Pool.
pub const POOL: &str = "\
    1 1 provide 7 12\n\
    0 0 provide 0 0\n\
    4294967295 18446744073709551615 provide 4294967295 18446744073709551615\n\
    2 3 provide 0 12\n\
    2 3 provide 1048575 12\n\
    2 3 provide 1048576 12\n\
    2 3 provide 4294967295 12\n\
    2 3 provide 7 0\n\
    2 3 provide 7 1\n\
    2 3 provide 7 18446744073709551615\n\
    1 1 withdraw 7 12\n\
    0 0 withdraw 0 0\n\
    4294967295 18446744073709551615 withdraw 4294967295 18446744073709551615\n\
    2 3 withdraw 0 12\n\
    2 3 withdraw 1048575 12\n\
    2 3 withdraw 1048576 12\n\
    2 3 withdraw 4294967295 12\n\
    2 3 withdraw 7 0\n\
    2 3 withdraw 7 1\n\
    2 3 withdraw 7 18446744073709551615\n\
    1 1 gain_to_trove 7 - -\n\
    0 0 gain_to_trove 0 0 0\n\
    4294967295 18446744073709551615 gain_to_trove 4294967295 4294967294 4294967294\n\
    2 3 gain_to_trove 0 - -\n\
    2 3 gain_to_trove 1048575 - -\n\
    2 3 gain_to_trove 1048576 - -\n\
    2 3 gain_to_trove 4294967295 - -\n\
    2 3 gain_to_trove 7 0 -\n\
    2 3 gain_to_trove 7 4294967294 -\n\
    2 3 gain_to_trove 7 - 0\n\
    2 3 gain_to_trove 7 - 4294967294\n\
    2 3 gain_to_trove 7 1048575 1048576";

/// Of liquidation, redemption and the journal.
pub const OTHERS: &str = "\
    1 1 liquidate 7 7\n\
    0 0 liquidate 0 0\n\
    4294967295 18446744073709551615 liquidate 4294967295 4294967295\n\
    2 3 liquidate 0 7\n\
    2 3 liquidate 1048575 7\n\
    2 3 liquidate 1048576 7\n\
    2 3 liquidate 4294967295 7\n\
    2 3 liquidate 7 0\n\
    2 3 liquidate 7 1048575\n\
    2 3 liquidate 7 1048576\n\
    2 3 liquidate 7 4294967295\n\
    1 1 liquidate_lowest 7 12\n\
    0 0 liquidate_lowest 0 0\n\
    4294967295 18446744073709551615 liquidate_lowest 4294967295 18446744073709551615\n\
    2 3 liquidate_lowest 0 12\n\
    2 3 liquidate_lowest 1048575 12\n\
    2 3 liquidate_lowest 1048576 12\n\
    2 3 liquidate_lowest 4294967295 12\n\
    2 3 liquidate_lowest 7 0\n\
    2 3 liquidate_lowest 7 1\n\
    2 3 liquidate_lowest 7 18446744073709551615\n\
    1 1 redeem 7 12 12 - -\n\
    0 0 redeem 0 0 0 0 0\n\
    4294967295 18446744073709551615 redeem 4294967295 18446744073709551615 18446744073709551615 \
        4294967294 4294967294\n\
    2 3 redeem 0 12 12 - -\n\
    2 3 redeem 1048575 12 12 - -\n\
    2 3 redeem 1048576 12 12 - -\n\
    2 3 redeem 4294967295 12 12 - -\n\
    2 3 redeem 7 0 12 - -\n\
    2 3 redeem 7 1 12 - -\n\
    2 3 redeem 7 18446744073709551615 12 - -\n\
    2 3 redeem 7 12 0 - -\n\
    2 3 redeem 7 12 1 - -\n\
    2 3 redeem 7 12 18446744073709551615 - -\n\
    2 3 redeem 7 12 12 0 -\n\
    2 3 redeem 7 12 12 4294967294 -\n\
    2 3 redeem 7 12 12 - 0\n\
    2 3 redeem 7 12 12 - 4294967294\n\
    2 3 redeem 7 12 12 1048575 1048576\n\
    1 1 claim 7\n\
    0 0 claim 0\n\
    4294967295 18446744073709551615 claim 4294967295\n\
    2 3 claim 0\n\
    2 3 claim 1048575\n\
    2 3 claim 1048576\n\
    2 3 claim 4294967295\n\
    1 1 rotate\n\
    0 0 rotate\n\
    4294967295 18446744073709551615 rotate";

/// Queries.
pub const QUERIES: &str = "\
    ? wallet 0\n\
    ? wallet 7\n\
    ? wallet 1048575\n\
    ? wallet 1048576\n\
    ? wallet 4294967295\n\
    ? trove 0\n\
    ? trove 7\n\
    ? trove 1048575\n\
    ? trove 1048576\n\
    ? trove 4294967295\n\
    ? deposit 0\n\
    ? deposit 7\n\
    ? deposit 1048575\n\
    ? deposit 1048576\n\
    ? deposit 4294967295\n\
    ? pools\n\
    ? system\n\
    ? next_number 0\n\
    ? next_number 7\n\
    ? next_number 1048575\n\
    ? next_number 1048576\n\
    ? next_number 4294967295";

/// Clients and numbers of each length.
pub const CLIENTS: &str = "\
    9 1 rotate\n\
    10 1 rotate\n\
    99 1 rotate\n\
    100 1 rotate\n\
    1048575 1 rotate\n\
    1048576 1 rotate\n\
    1 9 rotate\n\
    1 10 rotate\n\
    1 4294967296 rotate\n\
    1 1000000000000000000 rotate\n\
    1 10000000000000000000 rotate\n\
    1 2 open 1 10000000000 4000000000 1000000000000000000 - -";
