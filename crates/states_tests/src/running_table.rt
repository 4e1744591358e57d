// Printed by another implementation, which copies whole states: calls of a running state, and after `shows` all that is known.

pub(crate) const TABLE: &str = "\
layout 0|1 ; -128:127 -2147483648:2147483647\n\
mark\n\
no_exit 1\n\
mark\n\
assume a lt r0 r0\n\
take_back 2\n\
assume a ge r0 r0\n\
sum a 0 0 3\n\
sum a 1 0 0\n\
sum a 1 0 3\n\
assume a lt r1 r0\n\
shows a -121:127 -122:126\n\
join_patch 2\n\
release\n\
shows a -121:127 -122:126\n\
join_patch 1\n\
release\n\
keep_all 3\n\
is_at 3 yes\n\
interval a 0 0:5\n\
sum a 1 0 1\n\
is_at 3 no\n\
put 3\n\
shows a -121:127 -122:126\n\
shows a -121:127 -122:126\n\
mark\n\
no_exit 4\n\
mark\n\
assume a le r0 r1\n\
mark\n\
sum a 1 1 1\n\
sum a 0 0 1\n\
sum a 1 0 1\n\
sum a 0 1 1\n\
interval a 1 4:4\n\
keep_all 5\n\
is_at 5 yes\n\
interval a 1 2:2\n\
sum a 0 0 1\n\
is_at 5 no\n\
put 5\n\
shows a -118:127 4:4\n\
sum a 0 1 3\n\
shows a 7:7 4:4\n\
join_mark 2\n\
shows a -121:126 -121:126\n\
new_widening 6\n\
mark\n\
sum a 1 1 1\n\
sum a 0 0 1\n\
sum a 1 0 1\n\
sum a 0 1 1\n\
interval a 1 4:4\n\
keep_all 7\n\
is_at 7 yes\n\
interval a 1 2:2\n\
sum a 0 0 1\n\
is_at 7 no\n\
put 7\n\
shows a -118:127 4:4\n\
sum a 0 1 3\n\
shows a 7:7 4:4\n\
join_mark 2\n\
is_within yes\n\
release\n\
shows a -121:126 -121:126\n\
sum a 1 1 1\n\
sum a 0 0 1\n\
sum a 1 0 1\n\
sum a 0 1 1\n\
interval a 1 4:4\n\
keep_all 8\n\
is_at 8 yes\n\
interval a 1 2:2\n\
sum a 0 0 1\n\
is_at 8 no\n\
put 8\n\
shows a -118:127 4:4\n\
sum a 0 1 3\n\
shows a 7:7 4:4\n\
release\n\
shows a 7:7 4:4\n\
leave 0 4\n\
shows a bottom\n\
take_back 9\n\
assume a gt r0 r1\n\
leave 0 4\n\
join_patch 9\n\
release\n\
shows a bottom\n\
join_patch 4\n\
release\n\
mark\n\
sum a 0 0 -1\n\
sum a 1 0 1\n\
sum a 1 1 1\n\
join_mark 0\n\
shows a -122:127 -122:128\n\
new_widening 10\n\
mark\n\
sum a 0 0 -1\n\
sum a 1 0 1\n\
sum a 1 1 1\n\
join_mark 0\n\
is_within no\n\
widen_mark 10\n\
release\n\
shows a -128:127 -122:128\n\
mark\n\
sum a 0 0 -1\n\
sum a 1 0 1\n\
sum a 1 1 1\n\
join_mark 0\n\
is_within no\n\
widen_mark 10\n\
release\n\
shows a -128:127 -2147483648:128\n\
mark\n\
sum a 0 0 -1\n\
sum a 1 0 1\n\
sum a 1 1 1\n\
join_mark 0\n\
is_within yes\n\
release\n\
shows a -128:127 -126:128\n\
sum a 0 0 -1\n\
sum a 1 0 1\n\
sum a 1 1 1\n\
bottom a\n\
release\n\
shows a bottom\n\
shows a bottom\n\
layout 0 1 ; 0:255 0:255\n\
mark\n\
assume a gt r1 8\n\
interval a 0 18:23\n\
mark\n\
assume a ge r1 r1\n\
sum a 1 0 1\n\
mark\n\
assume a lt 22 r0\n\
sum a 1 1 0\n\
take_back 1\n\
assume a ge 22 r0\n\
sum a 0 1 1\n\
sum a 1 0 -1\n\
sum a 1 0 0\n\
sum a 0 1 0\n\
join_patch 1\n\
release\n\
take_back 2\n\
assume a lt r1 r1\n\
join_patch 2\n\
release\n\
take_back 3\n\
assume a le r1 8\n\
sum a 0 0 -1\n\
join_patch 3\n\
release\n\
mark\n\
sum a 0 0 2\n\
sum a 1 1 2\n\
sum a 1 0 3\n\
shows a 2:252 5:255 0-1:-3 1-0:3\n\
join_mark 0\n\
shows a 0:254 0:255 0-1:254 1-0:8\n\
new_widening 4\n\
mark\n\
sum a 0 0 2\n\
sum a 1 1 2\n\
sum a 1 0 3\n\
shows a 2:252 5:255 0-1:-3 1-0:3\n\
join_mark 0\n\
is_within yes\n\
release\n\
shows a 0:254 0:255 0-1:254 1-0:8\n\
sum a 0 0 2\n\
sum a 1 1 2\n\
sum a 1 0 3\n\
shows a 2:252 5:255 0-1:-3 1-0:3\n\
bottom a\n\
release\n\
shows a bottom\n\
shows a bottom\n\
layout 0|1|2|3 ; -2147483648:2147483647 0:255 -2147483648:2147483647 0:255\n\
sum a 0 3 3\n\
shows a 3:258 0:255 -2147483648:2147483647 0:255\n\
sum a 1 0 -1\n\
mark\n\
sum a 1 2 -1\n\
sum a 3 0 1\n\
mark\n\
sum a 0 0 1\n\
sum a 3 3 -1\n\
mark\n\
assume a gt 7 6\n\
sum a 1 2 3\n\
take_back 1\n\
assume a le 7 6\n\
join_patch 1\n\
release\n\
sum a 1 1 3\n\
join_mark 1\n\
shows a 3:259 0:255 -2147483648:2147483647 3:255\n\
new_widening 2\n\
mark\n\
sum a 0 0 1\n\
sum a 3 3 -1\n\
mark\n\
assume a gt 7 6\n\
sum a 1 2 3\n\
take_back 3\n\
assume a le 7 6\n\
join_patch 3\n\
release\n\
sum a 1 1 3\n\
join_mark 1\n\
is_within no\n\
widen_mark 2\n\
release\n\
shows a 3:2147483647 0:255 -2147483648:2147483647 0:255\n\
mark\n\
sum a 0 0 1\n\
sum a 3 3 -1\n\
mark\n\
assume a gt 7 6\n\
sum a 1 2 3\n\
take_back 4\n\
assume a le 7 6\n\
join_patch 4\n\
release\n\
sum a 1 1 3\n\
join_mark 1\n\
is_within yes\n\
release\n\
shows a 3:2147483647 0:255 -2147483648:2147483647 0:255\n\
sum a 0 0 1\n\
sum a 3 3 -1\n\
mark\n\
assume a gt 7 6\n\
sum a 1 2 3\n\
take_back 5\n\
assume a le 7 6\n\
join_patch 5\n\
release\n\
sum a 1 1 3\n\
bottom a\n\
release\n\
shows a bottom\n\
join_mark 0\n\
shows a 3:258 2:255 -2147483648:2147483647 0:255\n\
layout 0 3|1|2|4 ; 0:255 0:255 0:255 -128:127 0:255\n\
interval a 0 4:7\n\
interval a 1 0:3\n\
interval a 2 9:12\n\
interval a 3 1:4\n\
interval a 4 2:5\n\
mark\n\
no_exit 1\n\
mark\n\
no_exit 2\n\
mark\n\
assume a ne r4 r0\n\
leave 0 1\n\
take_back 3\n\
assume a eq r4 r0\n\
join_patch 3\n\
release\n\
mark\n\
assume a gt 15 r0\n\
sum a 2 4 -1\n\
sum a 4 3 -1\n\
leave 0 1\n\
take_back 4\n\
assume a le 15 r0\n\
join_patch 4\n\
release\n\
join_patch 2\n\
release\n\
shows a bottom\n\
join_patch 1\n\
release\n\
shows a 4:7 0:3 3:12 1:4 0:5 0-3:6 3-0:0\n\
mark\n\
no_exit 5\n\
mark\n\
assume a ne r2 r3\n\
leave 0 5\n\
take_back 6\n\
assume a eq r2 r3\n\
join_patch 6\n\
release\n\
mark\n\
assume a eq r3 r4\n\
sum a 4 4 -1\n\
leave 0 5\n\
take_back 7\n\
assume a ne r3 r4\n\
join_patch 7\n\
release\n\
leave 0 5\n\
join_patch 5\n\
release\n\
shows a 4:7 0:3 3:12 1:4 0:5 0-3:6 3-0:0\n\
mark\n\
no_exit 8\n\
mark\n\
assume a gt r0 r4\n\
sum a 2 1 -1\n\
sum a 2 4 1\n\
interval a 3 -3:6\n\
leave 0 8\n\
take_back 9\n\
assume a le r0 r4\n\
join_patch 9\n\
release\n\
mark\n\
no_exit 10\n\
mark\n\
assume a le 0 r1\n\
leave 0 8\n\
take_back 11\n\
assume a gt 0 r1\n\
join_patch 11\n\
release\n\
join_patch 10\n\
release\n\
shows a bottom\n\
join_patch 8\n\
release\n\
shows a 4:7 0:3 1:12 -3:6 0:5 0-3:10 3-0:2\n\
";
