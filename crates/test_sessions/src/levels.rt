//! Texts of systems whose responses are known.

/// A thread with a line rings another one.
pub const CHAIN: &str = "memory 18 7
untyped u 0x20000 17
object ca u frame
object va u root
object pa u table
object cb u frame
object vb u root
object pb u table
object ta u tcb
object tb u tcb
object sa u cnode 4
object sb u cnode 4
object b1 u notification
object b2 u notification
irq one 1 b1 1
cap sa 1 b1 2 0
cap sa 2 one 0 0
cap sa 3 b2 1 1
table va 0 pa
map va 0x1000 ca 4
cap sb 1 b2 2 0
table vb 0 pb
map vb 0x1000 cb 4
thread ta sa 28 va 110 11 0 start 0x1000
measure 3
start: addi x10 x0 1
addi x17 x0 5
ecall
addi x17 x0 1
lui x11 18
addi x10 x0 2
ecall
addi x17 x0 3
addi x10 x0 3
ecall
jal x0 start
end
thread tb sb 28 vb 110 14 0 start 0x1000
measure 3
start: addi x10 x0 1
addi x17 x0 5
ecall
addi x9 x9 1
addi x9 x9 1
addi x9 x9 1
addi x9 x9 1
addi x9 x9 1
addi x9 x9 1
addi x9 x9 1
addi x9 x9 1
addi x9 x9 1
addi x9 x9 1
jal x0 start
end
";

/// Two threads of one priority, each with a line of its own.
pub const EQUAL: &str = "memory 18 7
untyped u 0x20000 17
object ca u frame
object va u root
object pa u table
object cb u frame
object vb u root
object pb u table
object ta u tcb
object tb u tcb
object sa u cnode 4
object sb u cnode 4
object b1 u notification
object b2 u notification
irq one 1 b1 1
irq two 2 b2 1
cap sa 1 b1 2 0
cap sa 2 one 0 0
table va 0 pa
map va 0x1000 ca 4
cap sb 1 b2 2 0
cap sb 2 two 0 0
table vb 0 pb
map vb 0x1000 cb 4
thread ta sa 28 va 100 8 0 start 0x1000
measure 3
start: addi x10 x0 1
addi x17 x0 5
ecall
addi x17 x0 1
lui x11 18
addi x10 x0 2
ecall
jal x0 start
end
thread tb sb 28 vb 100 8 0 start 0x1000
measure 3
start: addi x10 x0 1
addi x17 x0 5
ecall
addi x17 x0 1
lui x11 18
addi x10 x0 2
ecall
jal x0 start
end
";

/// A thread with a line calls another one, which answers.
pub const SERVER: &str = "memory 18 7
untyped u 0x20000 17
object ca u frame
object va u root
object pa u table
object cb u frame
object vb u root
object pb u table
object ta u tcb
object tb u tcb
object sa u cnode 4
object sb u cnode 4
object b1 u notification
object door u endpoint
irq one 1 b1 1
cap sa 1 b1 2 0
cap sa 2 one 0 0
cap sa 3 door 9 1
table va 0 pa
map va 0x1000 ca 4
cap sb 1 door 2 0
table vb 0 pb
map vb 0x1000 cb 4
thread ta sa 28 va 100 9 0 start 0x1000
measure 3
start: addi x10 x0 1
addi x17 x0 5
ecall
addi x17 x0 1
lui x11 18
addi x10 x0 2
ecall
addi x17 x0 1
addi x11 x0 1
addi x10 x0 3
ecall
jal x0 start
end
thread tb sb 28 vb 110 16 0 start 0x1000
measure 3
start: addi x10 x0 1
addi x17 x0 5
ecall
measure 15
serve: addi x9 x9 1
addi x9 x9 1
addi x9 x9 1
addi x9 x9 1
addi x9 x9 1
addi x9 x9 1
addi x9 x9 1
addi x9 x9 1
addi x9 x9 1
addi x9 x9 1
addi x9 x9 1
addi x17 x0 2
addi x11 x0 1
addi x10 x0 1
ecall
jal x0 serve
end
";

/// The gallery's controller: a sensor, an output, and a watchdog, each with a line.
pub const CONTROLLER: &str = "memory 17 6
untyped u 0x10000 16
object control_code u frame
object control_space u root
object control_table u table
object sensor_code u frame
object sensor_space u root
object sensor_table u table
object watchdog_code u frame
object watchdog_space u root
object watchdog_table u table
object sample u frame
object output u frame 1
object status u frame
object control u tcb
object sensor u tcb
object watchdog u tcb
object control_slots u cnode 4
object sensor_slots u cnode 4
object watchdog_slots u cnode 4
object beat u notification
object ready u notification
object check u notification
object probe u frame 1
irq control_line 1 beat 1
irq watchdog_line 2 check 1
irq sensor_line 3 ready 1
cap control_slots 1 beat 2 0
cap control_slots 2 control_line 0 0
cap sensor_slots 1 ready 2 0
cap sensor_slots 2 sensor_line 0 0
cap watchdog_slots 1 check 2 0
cap watchdog_slots 2 watchdog_line 0 0
table control_space 0 control_table
table sensor_space 0 sensor_table
table watchdog_space 0 watchdog_table
map control_space 0x1000 control_code 4
map control_space 0x3000 sample 2
map control_space 0x4000 output 3
map control_space 0x5000 status 3
map sensor_space 0x1000 sensor_code 4
map sensor_space 0x3000 sample 3
map sensor_space 0x6000 probe 2
map watchdog_space 0x1000 watchdog_code 4
map watchdog_space 0x5000 status 2
thread control control_slots 28 control_space 100 27 0 wait 0x1000
measure 3
wait: addi x10 x0 1
addi x17 x0 5
ecall
lui x5 3
lw x6 0(x5)
addi x7 x0 68
bgeu x6 x7 not_low
addi x6 x7 0
measure 22
range x6 68 0xFFFFFFFF
not_low: addi x7 x0 132
bgeu x7 x6 not_high
addi x6 x7 0
measure 19
range x6 68 132
not_high: slli x6 x6 1
addi x7 x0 328
sub x6 x7 x6
measure 16
range x6 64 192
lui x5 4
sw x6 0(x5)
addi x10 x6 0
addi x17 x0 9
ecall
lui x5 5
addi x20 x20 1
sw x20 0(x5)
addi x10 x0 2
lui x11 0x12
addi x17 x0 3
ecall
jal x0 wait
end
thread sensor sensor_slots 28 sensor_space 110 12 0 wait 0x1000
measure 3
wait: addi x10 x0 1
addi x17 x0 5
ecall
lui x5 6
lw x6 0(x5)
lui x5 3
sw x6 0(x5)
addi x10 x0 2
lui x11 0x12
addi x17 x0 3
ecall
jal x0 wait
end
thread watchdog watchdog_slots 28 watchdog_space 120 15 0 wait 0x1000
measure 3
wait: addi x10 x0 1
addi x17 x0 5
ecall
lui x5 5
lw x6 0(x5)
bne x6 x20 moved
addi x10 x0 0x21
addi x17 x0 9
ecall
measure 9
moved: addi x20 x6 0
addi x10 x0 2
lui x11 0x12
addi x17 x0 3
ecall
jal x0 wait
end
";
